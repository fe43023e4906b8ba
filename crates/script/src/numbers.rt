// Numbers of a script.
ghost use Rattle.std.specs.Prelude.{◌≡◌, ◌≤◌, IfOk};
ghost use Rattle.script.specs.Numbers.{radix_of, digit_of, number_of};

use crate::faults::Fault;

/// How a number is written.
#[derive(Clone, Copy, PartialEq, Eq, Debug)]
pub(crate) enum Base {
    Octal,
    Decimal,
}

impl Base {
    /// 8 or 10.
    pub(crate) fn radix(self) -> u8
        ensures { result ≡ radix_of self }
    {
        match self {
            Base::Octal => 8,
            Base::Decimal => 10,
        }
    }

    /// What a digit stands for, if the byte is one.
    pub(crate) fn digit(self, byte: u8) -> Option<u8>
        ensures { result ≡ digit_of self byte }
    {
        byte.checked_sub(b'0').filter(|digit| *digit < self.radix())
    }
}

/// The number that a word writes, if it is one and not above a limit.
pub(crate) fn number(word: &[u8], base: Base, limit: u32) -> Result<u32, Fault>
    ensures value { result ≡ number_of base limit word.now }
    ensures within { IfOk result (λ n. n ≤ limit) }
{
    if word.is_empty() {
        return Err(Fault::NotANumber);
    }
    let mut value: u64 = 0;
    for byte in word {
        let digit = base.digit(*byte).ok_or(Fault::NotANumber)?;
        // Above the limit it stays there.
        if value <= u64::from(limit) {
            value = value * u64::from(base.radix()) + u64::from(digit);
        }
    }
    if value > u64::from(limit) {
        return Err(Fault::TooLarge);
    }
    Ok(value as u32)
}

/// The number of 16 bits that a word writes.
pub(crate) fn number_u16(word: &[u8], base: Base) -> Result<u16, Fault>
    ensures { result ≡ number_of base 65535 word.now }
{
    Ok(number(word, base, u32::from(u16::MAX))? as u16)
}
