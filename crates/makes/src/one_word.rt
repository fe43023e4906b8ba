// A memory of one word. Anybody outside the library writes a memory of their own like this: a meaning (specs/OneWord.antt), and the two calls of the bus.
ghost use Rattle.std.specs.Prelude.{◌≡◌};
ghost use Rattle.makes.specs.OneWord.{one_word_contents};
ghost use Rattle.media.specs.Laws.{at_places_placed};

use media::memory::{BusMemory, MemoryRefusal, check_address};

/// A memory that has a word at address 0 and no other.
#[derive(Drop)]
pub struct OneWord {
    word: u16,
}

impl OneWord {
    /// The memory of this word.
    pub fn new(word: u16) -> OneWord
        ensures { one_word_contents result.word ≡ one_word_contents word }
    {
        OneWord { word }
    }
}

impl BusMemory for OneWord {
    ghost contents = { λ m. one_word_contents m.word };

    ghost placed = { λ m. at_places_placed _ };

    fn read(&self, address: u32) -> Result<u16, MemoryRefusal> {
        check_address(address)?;
        if address == 0 {
            Ok(self.word)
        } else {
            Err(MemoryRefusal::NoWord)
        }
    }

    fn write(&mut self, address: u32, word: u16) -> Result<(), MemoryRefusal> {
        check_address(address)?;
        if address == 0 {
            self.word = word;
            Ok(())
        } else {
            Err(MemoryRefusal::NoWord)
        }
    }
}
