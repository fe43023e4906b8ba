// What is wrong with a sector.
ghost use Rattle.std.specs.Prelude.{◌≡◌};
ghost use Rattle.media.specs.Marks.{mark_of, mark_number, is_clean};

use std::fmt;

/// What is wrong with a sector, if anything.
#[derive(Clone, Copy, PartialEq, Eq, Debug)]
pub struct Mark {
    /// The sector's header cannot be read.
    pub unreadable: bool,
    /// The sector's data is damaged.
    pub damaged: bool,
}

impl Mark {
    /// Nothing is wrong.
    pub const CLEAN: Mark = Mark {
        unreadable: false,
        damaged: false,
    };

    /// Whether nothing is wrong.
    pub fn is_clean(self) -> bool
        ensures { result ≡ is_clean self }
    {
        self == Mark::CLEAN
    }
}

/// The mark with a number, of which only the two low bits count.
impl From<u8> for Mark {
    ghost from_gives = { λ number mark. mark ≡ mark_of number };

    fn from(number: u8) -> Mark {
        Mark {
            unreadable: number % 2 == 1,
            damaged: number / 2 % 2 == 1,
        }
    }
}

/// 1 for an unreadable header plus 2 for damaged data.
impl From<Mark> for u8 {
    ghost from_gives = { λ mark number. number ≡ mark_number mark };

    fn from(mark: Mark) -> u8 {
        match (mark.unreadable, mark.damaged) {
            (false, false) => 0,
            (true, false) => 1,
            (false, true) => 2,
            (true, true) => 3,
        }
    }
}

impl fmt::Display for Mark {
    ghost use Rattle.std.specs.Prelude.{Some};
    ghost use Rattle.media.specs.Texts.{mark_text};

    ghost output = { λ x. Some (mark_text x) };

    fn fmt<W: fmt::Write>(&self, f: &mut fmt::Formatter<W>) -> fmt::Result {
        f.write_str(match (self.unreadable, self.damaged) {
            (false, false) => "nothing is wrong",
            (true, false) => "its header cannot be read",
            (false, true) => "its data is damaged",
            (true, true) => "its header cannot be read, and its data is damaged",
        })
    }
}
