// A whole script.
ghost use Rattle.std.specs.Prelude.{◌≡◌, ◌++◌, Some, None, Ok, IsSome, OnOk, IfErr};
ghost use Rattle.script.specs.Arguments.{and_then};
ghost use Rattle.script.specs.Scripts.{plan_of, empty_plan, bench_of, settled, with_pokes, with_step, told_of, poked, poke_lines, set_up, line_added, error_at, numbered, script_of, Reported, AddedSo, ReadSo};
ghost use Rattle.script.specs.Words.{line_words, others_of};
ghost use Rattle.script.specs.declared.faults.Fault.TheVariants.{SetupTwice};
ghost use Rattle.script.specs.declared.scripts.LineError.TheVariants as line_error;

use crate::echoes::echo;
use crate::faults::{Fault, LineFault};
use crate::lines::{Line, read_line};
use crate::numbers::{Base, number_u16};
use crate::setup::{MemorySetup, Setup, ShelfSetup};
use crate::steps::Step;
use crate::words::Words;
use shelves::cards::Card;
use std::alloc::{AllocError, AllocFailed, Global};
use std::error::Error;
use std::fmt;

/// A card, with the number of its line.
#[derive(Clone, Copy, PartialEq, Eq, Debug)]
pub struct CardLine {
    pub line: usize,
    pub card: Card,
}

/// A word put into memory, with the number of its line.
#[derive(Clone, Copy, PartialEq, Eq, Debug)]
pub struct PokeLine {
    pub line: usize,
    pub address: u32,
    pub word: u16,
}

/// A call or a look, with the number of its line and the words of the line as they were typed.
#[derive(Drop)]
pub struct StepLine {
    pub line: usize,
    pub step: Step,
    pub echo: String,
}

/// A script.
#[derive(Drop)]
pub struct Script {
    /// The kinds of the four units; all zero if the script says nothing of them.
    // Numbers, as ShelfSetup has them.
    pub drives: [u8; 4],
    /// The shelf; flat, of kind 1, if the script says nothing of it.
    pub shelf: ShelfSetup,
    /// The memory; a board of no words if the script says nothing of it.
    pub memory: MemorySetup,
    /// The cards, in order.
    pub cards: Vec<CardLine>,
    /// The words put into memory, in order.
    pub pokes: Vec<PokeLine>,
    /// The calls and looks, in order.
    pub steps: Vec<StepLine>,
}

// A line of a script, with its number from 1 on.
#[derive(Clone, Copy, PartialEq, Eq, Debug)]
struct SourceLine<'a> {
    number: usize,
    text: &'a [u8],
}

// A script of which some lines are read.
#[derive(Drop)]
struct Draft {
    heap: Global,
    drives: Option<[u8; 4]>,
    shelf: Option<ShelfSetup>,
    memory: Option<MemorySetup>,
    cards: Vec<CardLine>,
    pokes: Vec<PokeLine>,
    steps: Vec<StepLine>,
}

/// Why a script is not read.
#[derive(Clone, Copy, PartialEq, Eq, Debug)]
pub enum ScriptError {
    /// A line has a fault.
    Line(LineFault),
    /// There is no memory for it.
    NoMemory,
}

impl fmt::Display for ScriptError {
    fn fmt<W: fmt::Write>(&self, f: &mut fmt::Formatter<W>) -> fmt::Result {
        match self {
            ScriptError::Line(fault) => write!(f, "{fault}"),
            ScriptError::NoMemory => write!(f, "there is no memory for the script"),
        }
    }
}

impl Error for ScriptError {}

// Why a line is not added to a script. Not a ScriptError: `?` makes it of a Fault, which knows no line's number.
#[derive(Clone, Copy, PartialEq, Eq, Debug)]
enum LineError {
    Fault(Fault),
    NoMemory,
}

impl From<Fault> for LineError {
    ghost from_gives = { λ fault r. r ≡ line_error.Fault fault };

    fn from(fault: Fault) -> LineError {
        LineError::Fault(fault)
    }
}

impl From<AllocError> for LineError {
    ghost from_gives = { λ _ r. r ≡ line_error.NoMemory };

    fn from(_: AllocError) -> LineError {
        LineError::NoMemory
    }
}

impl<T: Drop> From<AllocFailed<T>> for LineError {
    ghost from_gives = { λ _ r. r ≡ line_error.NoMemory };

    fn from(refused: AllocFailed<T>) -> LineError {
        drop(refused);
        LineError::NoMemory
    }
}

impl LineError {
    // The error of a line of this number.
    fn at(self, line: usize) -> ScriptError
        ensures { result ≡ error_at line self }
    {
        match self {
            LineError::Fault(fault) => ScriptError::Line(LineFault { line, fault }),
            LineError::NoMemory => ScriptError::NoMemory,
        }
    }
}

impl Draft {
    // No line is read.
    fn new(heap: Global) -> Draft
        ensures { plan_of result ≡ empty_plan }
    {
        Draft {
            heap,
            drives: None,
            shelf: None,
            memory: None,
            cards: Vec::new(heap),
            pokes: Vec::new(heap),
            steps: Vec::new(heap),
        }
    }

    // All lines are read.
    fn finish(self) -> Script
        ensures { bench_of result ≡ settled (plan_of self) }
    {
        Script {
            drives: self.drives.unwrap_or([0; 4]),
            shelf: self.shelf.unwrap_or(ShelfSetup::Flat { kind: 1 }),
            memory: self.memory.unwrap_or(MemorySetup::Board { words: 0 }),
            cards: self.cards,
            pokes: self.pokes,
            steps: self.steps,
        }
    }

    fn add_pokes(&mut self, line: &SourceLine, address: u32) -> Result<(), LineError>
        ensures { Reported (and_then (poke_lines line.now.number address (others_of (others_of (line_words line.now.text.now)))) (λ ps. Ok (with_pokes ps (plan_of self.old)))) result (plan_of self.new) }
    {
        let mut words = Words::of_line(line.text);
        // The keyword and the address.
        let _ = words.next();
        let _ = words.next();
        if words.is_empty() {
            return Err(Fault::MissingWord.into());
        }
        push_pokes(&mut self.pokes, &mut words, line.number, address)
    }

    fn add_step(&mut self, line: &SourceLine, step: Step) -> Result<(), LineError>
        ensures { Reported (Ok (with_step (told_of line.now.number step (line_words line.now.text.now)) (plan_of self.old))) result (plan_of self.new) }
    {
        let echo = echo(self.heap, line.text)?;
        self.steps.push(StepLine {
            line: line.number,
            step,
            echo,
        })?;
        Ok(())
    }

    fn add_setup(&mut self, line: &SourceLine, setup: Setup) -> Result<(), LineError>
        ensures { Reported (set_up line.now.number (line_words line.now.text.now) setup (plan_of self.old)) result (plan_of self.new) }
    {
        match setup {
            Setup::Drives(kinds) => set_once(&mut self.drives, kinds)?,
            Setup::Shelf(shelf) => set_once(&mut self.shelf, shelf)?,
            Setup::Card(card) => self.cards.push(CardLine {
                line: line.number,
                card,
            })?,
            Setup::Memory(memory) => set_once(&mut self.memory, memory)?,
            Setup::Poke { address } => self.add_pokes(line, address)?,
        }
        Ok(())
    }

    fn add_line(&mut self, line: &SourceLine) -> Result<(), LineError>
        ensures { Reported (line_added line.now.number line.now.text.now (plan_of self.old)) result (plan_of self.new) }
    {
        match read_line(line.text)? {
            Line::Blank => Ok(()),
            Line::Setup(_) if !self.steps.is_empty() => Err(Fault::LateSetup.into()),
            Line::Setup(setup) => self.add_setup(line, setup),
            Line::Step(step) => self.add_step(line, step),
        }
    }

    // Adds a line, whose error has its number.
    fn add_numbered(&mut self, line: &SourceLine) -> Result<(), ScriptError>
        ensures { AddedSo (numbered line.now.number (line_added line.now.number line.now.text.now (plan_of self.old)) Ok) result (plan_of self.new) }
    {
        let number = line.number;
        self.add_line(line).map_err(|error| error.at(number))
    }
}

// Fills a place that is still empty.
fn set_once<T: Drop>(place: &mut Option<T>, value: T) -> Result<(), Fault>
    ensures ok { OnOk result ((place.old ≡ None) × (place.new ≡ Some value)) }
    ensures err { IfErr result (λ fault. (fault ≡ SetupTwice) × IsSome place.old × (place.new ≡ place.old)) }
{
    if place.is_some() {
        return Err(Fault::SetupTwice);
    }
    *place = Some(value);
    Ok(())
}

// Words for memory, as many as the line has.
fn push_pokes(
    pokes: &mut Vec<PokeLine>,
    words: &mut Words,
    line: usize,
    address: u32,
) -> Result<(), LineError>
    ensures { Reported (and_then (poked line address words.old) (λ ps. Ok (pokes.old.items ++ ps))) result pokes.new.items }
{
    let mut address = address;
    for word in words {
        let word = number_u16(word, Base::Octal)?;
        pokes.push(PokeLine {
            line,
            address,
            word,
        })?;
        // The definition goes from one address to the next, and so does the loop.
        address = address.saturating_add(2);
    }
    Ok(())
}

/// Reads a script.
pub fn read_script(heap: Global, text: &[u8]) -> Result<Script, ScriptError>
    ensures { ReadSo (script_of text.now) result }
{
    let mut draft = Draft::new(heap);
    for (at, text) in text.split(|byte| *byte == b'\n').enumerate() {
        let line = SourceLine {
            number: at + 1,
            text,
        };
        draft.add_numbered(&line)?;
    }
    Ok(draft.finish())
}
