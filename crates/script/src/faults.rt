// What can be wrong with a line of a script.
ghost use Rattle.std.specs.Prelude.{◌≡◌, Some};
ghost use Rattle.script.specs.Faults.{fault_text, line_fault_text};

use std::error::Error;
use std::fmt;

/// What is wrong with a line.
#[derive(Clone, Copy, PartialEq, Eq, Debug)]
pub enum Fault {
    /// A word stands where a word of the language is wanted, and is none.
    UnknownWord,
    /// A number is above the largest that is wanted there.
    TooLarge,
    /// A word has another character than a digit, where a number is wanted.
    NotANumber,
    /// The line ends too early.
    MissingWord,
    /// The line goes on after its last word.
    ExtraWord,
    /// A set-up line stands after a call or a look.
    LateSetup,
    /// The drives, the shelf or the memory are set up a second time.
    SetupTwice,
}

/// A fault, with the number of its line from 1 on.
#[derive(Clone, Copy, PartialEq, Eq, Debug)]
pub struct LineFault {
    pub line: usize,
    pub fault: Fault,
}

impl Fault {
    // What is wrong, in words.
    fn words(self) -> &'static str
        ensures { result.now ≡ fault_text self }
    {
        match self {
            Fault::UnknownWord => "unknown word",
            Fault::TooLarge => "a number is too large",
            Fault::NotANumber => "a word is not a number",
            Fault::MissingWord => "a word is missing",
            Fault::ExtraWord => "there is a word too many",
            Fault::LateSetup => "a set-up line stands after the first call or look",
            Fault::SetupTwice => "this was set up already",
        }
    }
}

impl fmt::Display for Fault {
    ghost output = { λ x. Some (fault_text x) };

    fn fmt<W: fmt::Write>(&self, f: &mut fmt::Formatter<W>) -> fmt::Result {
        let what = self.words();
        write!(f, "{what}")
    }
}

impl Error for Fault {}

impl fmt::Display for LineFault {
    ghost output = { λ x. Some (line_fault_text x) };

    fn fmt<W: fmt::Write>(&self, f: &mut fmt::Formatter<W>) -> fmt::Result {
        let line = self.line;
        let fault = self.fault;
        write!(f, "line {line}: {fault}")
    }
}

impl Error for LineFault {}
