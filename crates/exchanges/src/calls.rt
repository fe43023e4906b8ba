// Any call on a controller and any answer, as values.
ghost use Rattle.std.specs.Prelude.{◌≡◌};
ghost use Rattle.exchanges.specs.Calls.{passage_of};

use crate::refusals::Refusal;

/// A call on a controller.
#[derive(Clone, Copy, PartialEq, Eq, Debug)]
pub enum Call {
    /// A bus read.
    Read { address: u32 },
    /// A bus write.
    Write { address: u32, word: u16 },
    /// The bus's INIT.
    Init,
    /// The bus grants an interrupt.
    Grant,
    /// The load press of a unit's panel, with a pack of the shelf.
    Load { unit: u8, pack: u8 },
    /// The unload press of a unit's panel.
    Unload { unit: u8 },
    /// A press of a unit's protect switch.
    Protect { unit: u8 },
}

/// Which words passed between a sector and memory.
#[derive(Clone, Copy, PartialEq, Eq, Debug)]
pub struct Passage {
    pub unit: u8,
    pub pack: u8,
    pub block: u16,
    /// The bus address of the first word.
    pub address: u32,
    /// How many words passed.
    pub words: u16,
}

/// What moved in a tick.
#[derive(Clone, Copy, PartialEq, Eq, Debug)]
pub enum Move {
    /// No word moved.
    Nothing,
    /// Words of a sector went into memory.
    Fetched(Passage),
    /// Words of memory went into a sector.
    Stored(Passage),
    /// Words of a sector were compared with memory.
    Compared(Passage),
}

/// What a tick did.
#[derive(Clone, Copy, PartialEq, Eq, Debug)]
pub struct Report {
    /// Whether a function ended.
    pub ended: bool,
    pub moved: Move,
}

/// What an accepted call answers.
#[derive(Clone, Copy, PartialEq, Eq, Debug)]
pub enum Reply {
    /// The word that a bus read answers.
    Word(u16),
    /// The call has nothing to answer.
    Done,
    /// The vector of a granted interrupt.
    Vector(u16),
    /// What a tick did.
    Ticked(Report),
}

/// The answer to a call: a refused one changed nothing.
pub type Answer = Result<Reply, Refusal>;

/// A call beside its answer.
#[derive(Clone, Copy, PartialEq, Eq, Debug)]
pub struct Exchange {
    pub call: Call,
    pub answer: Answer,
}

impl Move {
    /// The words that moved; all zero where none did.
    // Not an Option: by a rule of the project a report names zeros where no word moved.
    pub fn passage(self) -> Passage
        ensures { result ≡ passage_of self }
    {
        match self {
            Move::Nothing => Passage {
                unit: 0,
                pack: 0,
                block: 0,
                address: 0,
                words: 0,
            },
            Move::Fetched(passage) | Move::Stored(passage) | Move::Compared(passage) => passage,
        }
    }
}
