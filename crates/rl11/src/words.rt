// The bits of a word, and of a bus address.
ghost use Rattle.std.specs.Prelude.{◌≡◌, ◌%◌, ◌<◌};
ghost use Rattle.rl11.specs.Words.{bit_of, low_word, extension_of, with_low_word, with_extension};

/// Whether a bit of a word is set.
pub(crate) fn has_bit(word: u16, place: u16) -> bool
    requires { place < 16 }
    ensures { result ≡ bit_of place word }
{
    word >> place & 1 == 1
}

/// The low byte of a word.
pub(crate) fn low_byte(word: u16) -> u16
    ensures { result ≡ word % 256 }
{
    word & 0o377
}

/// The low 16 bits of a bus address.
pub(crate) fn low_word(address: u32) -> u16
    ensures { result ≡ low_word address }
{
    (address & 0o177777) as u16
}

/// Bits 16 and 17 of a bus address.
pub(crate) fn extension(address: u32) -> u8
    ensures { result ≡ extension_of address }
{
    (address >> 16 & 3) as u8
}

/// A bus address with other low bits, bit 0 clear.
pub(crate) fn with_low_word(address: u32, word: u16) -> u32
    ensures { result ≡ with_low_word address word }
{
    address >> 16 << 16 | (word >> 1 << 1) as u32
}

/// A bus address with other bits 16 and 17.
pub(crate) fn with_extension(address: u32, extension: u8) -> u32
    ensures { result ≡ with_extension address extension }
{
    (extension as u32) << 16 | address & 0o177777
}
