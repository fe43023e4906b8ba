// The first word of a line.
ghost use Rattle.std.specs.Prelude.{◌≡◌};
ghost use Rattle.std.specs.Option.{ok_or};
ghost use Rattle.script.specs.declared.faults.Fault.TheVariants.{UnknownWord};

use crate::faults::Fault;

/// The first word of a line, which says what the line is.
#[derive(Clone, Copy, PartialEq, Eq, Debug)]
pub(crate) enum Keyword {
    Drives,
    Shelf,
    Card,
    Memory,
    Poke,
    Read,
    Write,
    Init,
    Grant,
    Load,
    Unload,
    Protect,
    Sector,
    Kind,
}

impl TryFrom<&[u8]> for Keyword {
    ghost use Rattle.script.specs.Keywords.{keyword_of};

    type Error = Fault;

    ghost try_from_gives = { λ word r. r ≡ ok_or (keyword_of word.now) UnknownWord };

    fn try_from(word: &[u8]) -> Result<Keyword, Fault> {
        match word {
            b"drives" => Ok(Keyword::Drives),
            b"shelf" => Ok(Keyword::Shelf),
            b"card" => Ok(Keyword::Card),
            b"memory" => Ok(Keyword::Memory),
            b"poke" => Ok(Keyword::Poke),
            b"read" => Ok(Keyword::Read),
            b"write" => Ok(Keyword::Write),
            b"init" => Ok(Keyword::Init),
            b"grant" => Ok(Keyword::Grant),
            b"load" => Ok(Keyword::Load),
            b"unload" => Ok(Keyword::Unload),
            b"protect" => Ok(Keyword::Protect),
            b"sector" => Ok(Keyword::Sector),
            b"kind" => Ok(Keyword::Kind),
            _ => Err(Fault::UnknownWord),
        }
    }
}
