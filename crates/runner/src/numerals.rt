// Octal numbers as text, each a type of its own, so that what the formatter writes is compared with the digits of the rules once and not at each use.
ghost use Rattle.std.specs.Prelude.{Some};
ghost use Rattle.runner.specs.Numerals.{six_digits, plain_octal, long_octal};

use std::fmt;

/// A number of 16 bits in octal, of six digits.
#[derive(Clone, Copy, PartialEq, Eq, Debug)]
pub(crate) struct Octal(pub(crate) u16);

/// A number of 16 bits in octal, without zeros in front.
#[derive(Clone, Copy, PartialEq, Eq, Debug)]
pub(crate) struct PlainOctal(pub(crate) u16);

/// A number in octal, of six digits at least.
#[derive(Clone, Copy, PartialEq, Eq, Debug)]
pub(crate) struct LongOctal(pub(crate) u32);

impl fmt::Display for Octal {
    ghost output = { λ x. Some (six_digits x.0) };

    fn fmt<W: fmt::Write>(&self, f: &mut fmt::Formatter<W>) -> fmt::Result {
        let number = self.0;
        write!(f, "{number:06o}")
    }
}

impl fmt::Display for PlainOctal {
    ghost output = { λ x. Some (plain_octal x.0) };

    fn fmt<W: fmt::Write>(&self, f: &mut fmt::Formatter<W>) -> fmt::Result {
        let number = self.0;
        write!(f, "{number:o}")
    }
}

impl fmt::Display for LongOctal {
    ghost output = { λ x. Some (long_octal x.0) };

    fn fmt<W: fmt::Write>(&self, f: &mut fmt::Formatter<W>) -> fmt::Result {
        let number = self.0;
        write!(f, "{number:06o}")
    }
}
