// The two kinds of pack.
ghost use Rattle.std.specs.Prelude.{◌≡◌};
ghost use Rattle.media.specs.Kinds.{kind_number, kind_numbered, cylinders_of, blocks_of};

use std::error::Error;
use std::fmt;

/// The heads of a pack, and so the tracks of a cylinder.
pub const HEADS: u16 = 2;

/// The sectors of a track.
pub const SECTORS: u16 = 40;

/// A kind of pack.
#[derive(Clone, Copy, PartialEq, Eq, Debug)]
pub enum Kind {
    Rl01 = 1,
    Rl02 = 2,
}

/// A number that is no kind's.
#[derive(Clone, Copy, PartialEq, Eq, Debug)]
pub struct UnknownKind(pub u8);

/// 1 is an RL01, 2 an RL02, and no other number is a kind.
impl TryFrom<u8> for Kind {
    type Error = UnknownKind;

    ghost try_from_gives = { λ number r. r ≡ kind_numbered number };

    fn try_from(number: u8) -> Result<Kind, UnknownKind> {
        match number {
            1 => Ok(Kind::Rl01),
            2 => Ok(Kind::Rl02),
            _ => Err(UnknownKind(number)),
        }
    }
}

/// 1 for an RL01, 2 for an RL02.
impl From<Kind> for u8 {
    ghost from_gives = { λ kind number. number ≡ kind_number kind };

    fn from(kind: Kind) -> u8 {
        kind as u8
    }
}

impl Kind {
    /// How many cylinders a pack of this kind has.
    pub fn cylinders(self) -> u16
        ensures { result ≡ cylinders_of self }
    {
        match self {
            Kind::Rl01 => 256,
            Kind::Rl02 => 512,
        }
    }

    /// How many sectors a pack of this kind has, and so the first block number that it lacks.
    pub fn blocks(self) -> u16
        ensures { result ≡ blocks_of self }
    {
        self.cylinders() * (HEADS * SECTORS)
    }
}

impl fmt::Display for UnknownKind {
    ghost use Rattle.std.specs.Prelude.{Some};
    ghost use Rattle.media.specs.Texts.{unknown_kind_text};

    ghost output = { λ x. Some (unknown_kind_text x) };

    fn fmt<W: fmt::Write>(&self, f: &mut fmt::Formatter<W>) -> fmt::Result {
        write!(f, "no kind of pack has number {}", self.0)
    }
}

impl Error for UnknownKind {}
