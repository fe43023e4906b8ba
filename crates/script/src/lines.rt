// A line of a script.
ghost use Rattle.std.specs.Prelude.{◌≡◌};
ghost use Rattle.script.specs.Lines.{memory_line, keyword_line, line_of};
ghost use Rattle.script.specs.Words.{line_words};

use crate::faults::Fault;
use crate::keywords::Keyword;
use crate::numbers::{Base, number};
use crate::setup::{Setup, take_board, take_card, take_drives, take_poke, take_shelf, take_stack};
use crate::steps::{
    Step, take_kind, take_load, take_memory, take_protect, take_read, take_sector, take_unload,
    take_write,
};
use crate::words::Words;
use exchanges::calls::Call;

/// What a line of a script says.
#[derive(Clone, Copy, PartialEq, Eq, Debug)]
pub(crate) enum Line {
    /// Nothing.
    Blank,
    Setup(Setup),
    Step(Step),
}

// Memory is set up as a board or as a stack; or else it is looked at.
fn memory_line(words: &mut Words) -> Result<Line, Fault>
    ensures { result ≡ memory_line words.old }
{
    match words.next_word()? {
        b"board" => take_board(words).map(Line::Setup),
        b"stack" => take_stack(words).map(Line::Setup),
        word => {
            let address = number(word, Base::Octal, u32::MAX)?;
            take_memory(words, address).map(Line::Step)
        }
    }
}

// What a line says whose first word was taken.
fn keyword_line(keyword: Keyword, words: &mut Words) -> Result<Line, Fault>
    ensures { result ≡ keyword_line keyword words.old }
{
    match keyword {
        Keyword::Drives => take_drives(words).map(Line::Setup),
        Keyword::Shelf => take_shelf(words).map(Line::Setup),
        Keyword::Card => take_card(words).map(Line::Setup),
        Keyword::Memory => memory_line(words),
        Keyword::Poke => take_poke(words).map(Line::Setup),
        Keyword::Read => take_read(words).map(Line::Step),
        Keyword::Write => take_write(words).map(Line::Step),
        Keyword::Init => words.close(Line::Step(Step::Call(Call::Init))),
        Keyword::Grant => words.close(Line::Step(Step::Call(Call::Grant))),
        Keyword::Load => take_load(words).map(Line::Step),
        Keyword::Unload => take_unload(words).map(Line::Step),
        Keyword::Protect => take_protect(words).map(Line::Step),
        Keyword::Sector => take_sector(words).map(Line::Step),
        Keyword::Kind => take_kind(words).map(Line::Step),
    }
}

/// What a line says; of words for memory, only the address.
pub(crate) fn read_line(line: &[u8]) -> Result<Line, Fault>
    ensures { result ≡ line_of (line_words line.now) }
{
    let mut words = Words::of_line(line);
    let Some(word) = words.next() else {
        return Ok(Line::Blank);
    };
    keyword_line(Keyword::try_from(word)?, &mut words)
}
