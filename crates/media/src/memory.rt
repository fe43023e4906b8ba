// The memory of a bus: what every make of it answers.
ghost use Rattle.std.specs.Prelude.{◌≡◌};
ghost use Rattle.media.specs.Memory.{Words, OnlyEvenBelowLimit, memory_refusal_number, address_reply, read_reply, write_reply, after_write};

/// Why a read or a write of a word is refused.
#[derive(Clone, Copy, PartialEq, Eq, Debug)]
pub enum MemoryRefusal {
    OddAddress = 3,
    NoWord = 4,
}

/// 3 for an odd address, 4 for one that has no word.
impl From<MemoryRefusal> for u8 {
    ghost from_gives = { λ refusal number. number ≡ memory_refusal_number refusal };

    fn from(refusal: MemoryRefusal) -> u8 {
        refusal as u8
    }
}

const WORD_LIMIT: u32 = 0o760000;

/// Refuses an address at which no memory has a word.
pub fn check_address(address: u32) -> Result<(), MemoryRefusal>
    ensures { result ≡ address_reply address }
{
    if address % 2 == 1 {
        Err(MemoryRefusal::OddAddress)
    } else if address >= WORD_LIMIT {
        Err(MemoryRefusal::NoWord)
    } else {
        Ok(())
    }
}

/// A memory on the bus. Each even address below 0o760000 has a word of 16 bits or is absent, for good; no other address has one.
pub trait BusMemory {
    // The word at each address, if it has one.
    ghost contents: { Self → Words };

    // No address has a word but even ones below 0o760000.
    ghost placed: { (m : Self) → OnlyEvenBelowLimit (contents m) };

    /// The word at an address.
    fn read(&self, address: u32) -> Result<u16, MemoryRefusal>
        ensures { result ≡ read_reply (contents self.now) address };

    /// Puts a word at an address that has one, and changes nothing else.
    fn write(&mut self, address: u32, word: u16) -> Result<(), MemoryRefusal>
        ensures reply { result ≡ write_reply (contents self.old) address }
        ensures after { contents self.new ≡ after_write (contents self.old) address word };
}
