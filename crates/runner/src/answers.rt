// The answers of a controller as text.
ghost use Rattle.std.specs.Prelude.{Some};
ghost use Rattle.runner.specs.Answers.{refused_text, passage_text, move_text, report_text, answer_text};

use crate::numerals::{LongOctal, Octal, PlainOctal};
use exchanges::calls::{Answer, Move, Passage, Reply, Report};
use std::fmt;

/// A refusal, by its number.
// The number alone is told, and refusals of several types are told alike.
#[derive(Clone, Copy, PartialEq, Eq, Debug)]
pub(crate) struct RefusedText(pub(crate) u8);

/// What is told of an answer.
#[derive(Clone, Copy, PartialEq, Eq, Debug)]
pub(crate) struct AnswerText(pub(crate) Answer);

// What is told of a tick.
#[derive(Clone, Copy, PartialEq, Eq, Debug)]
struct ReportText(Report);

// What is told of what moved.
#[derive(Clone, Copy, PartialEq, Eq, Debug)]
struct MoveText(Move);

// What is told of the words that passed.
#[derive(Clone, Copy, PartialEq, Eq, Debug)]
struct PassageText(Passage);

impl fmt::Display for RefusedText {
    ghost output = { λ x. Some (refused_text x.0) };

    fn fmt<W: fmt::Write>(&self, f: &mut fmt::Formatter<W>) -> fmt::Result {
        write!(f, "refused {}", self.0)
    }
}

impl fmt::Display for PassageText {
    ghost output = { λ x. Some (passage_text x.0) };

    fn fmt<W: fmt::Write>(&self, f: &mut fmt::Formatter<W>) -> fmt::Result {
        let Passage {
            unit,
            pack,
            block,
            address,
            words,
        } = self.0;
        let address = LongOctal(address);
        write!(
            f,
            " unit {unit} pack {pack} block {block} address {address} words {words}"
        )
    }
}

impl fmt::Display for MoveText {
    ghost output = { λ x. Some (move_text x.0) };

    fn fmt<W: fmt::Write>(&self, f: &mut fmt::Formatter<W>) -> fmt::Result {
        match self.0 {
            Move::Nothing => write!(f, "nothing"),
            Move::Fetched(passage) => write!(f, "fetched{}", PassageText(passage)),
            Move::Stored(passage) => write!(f, "stored{}", PassageText(passage)),
            Move::Compared(passage) => write!(f, "compared{}", PassageText(passage)),
        }
    }
}

impl fmt::Display for ReportText {
    ghost output = { λ x. Some (report_text x.0) };

    fn fmt<W: fmt::Write>(&self, f: &mut fmt::Formatter<W>) -> fmt::Result {
        let Report { ended, moved } = self.0;
        write!(f, "ended {} moved {}", u8::from(ended), MoveText(moved))
    }
}

impl fmt::Display for AnswerText {
    ghost output = { λ x. Some (answer_text x.0) };

    fn fmt<W: fmt::Write>(&self, f: &mut fmt::Formatter<W>) -> fmt::Result {
        match self.0 {
            Ok(Reply::Word(word)) => write!(f, "{}", Octal(word)),
            Ok(Reply::Done) => write!(f, "done"),
            Ok(Reply::Vector(vector)) => write!(f, "vector {}", PlainOctal(vector)),
            Ok(Reply::Ticked(report)) => write!(f, "{}", ReportText(report)),
            Err(refusal) => write!(f, "{}", RefusedText(u8::from(refusal))),
        }
    }
}
