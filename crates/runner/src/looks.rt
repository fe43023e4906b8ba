// What a look shows.
ghost use Rattle.std.specs.Prelude.{◌≡◌, ◌++◌, Some, string_bytes, OnOk};
ghost use Rattle.media.specs.Shelf.{kind_reply};
ghost use Rattle.runner.specs.Looks.{words_text, sector_text, kind_text, cell_text, cells_text, memory_text, look_text};
ghost use Rattle.runner.specs.Sessions.{Tells, unchanged};

use crate::answers::RefusedText;
use crate::numerals::Octal;
use crate::sessions::Session;
use media::memory::{BusMemory, MemoryRefusal};
use media::shelf::{SECTOR_WORDS, Shelf};
use script::steps::Look;
use std::alloc::AllocError;
use std::fmt;

// A word of memory, if it is there.
#[derive(Clone, Copy, PartialEq, Eq, Debug)]
struct CellText(Result<u16, MemoryRefusal>);

impl fmt::Display for CellText {
    ghost output = { λ x. Some (cell_text x.0) };

    fn fmt<W: fmt::Write>(&self, f: &mut fmt::Formatter<W>) -> fmt::Result {
        match self.0 {
            Ok(word) => write!(f, "{}", Octal(word)),
            Err(_) => write!(f, "absent"),
        }
    }
}

// Writes words, each with a space before it.
fn push_words(text: &mut String, words: &[u16]) -> Result<(), AllocError>
    ensures { OnOk result (string_bytes text.new ≡ string_bytes text.old ++ words_text words.now) }
{
    for word in words {
        write!(text, " {}", Octal(*word))?;
    }
    Ok(())
}

impl<S: Shelf, M: BusMemory> Session<S, M> {
    // Tells the mark and the words of a sector.
    fn look_at_sector(&mut self, pack: u8, block: u16) -> Result<(), AllocError>
        ensures told { OnOk result (Tells S.Shelf.packs M.BusMemory.contents self.old self.new (λ m. sector_text (m.packs.sector pack block)) unchanged) }
        ensures kept { self.new.controller ≡ self.old.controller }
    {
        let mut words = [0; SECTOR_WORDS];
        match self.controller.sector_of(pack, block, &mut words) {
            Ok(mark) => {
                write!(self.text, "mark {} words", u8::from(mark))?;
                push_words(&mut self.text, &words)
            }
            Err(refusal) => write!(self.text, "{}", RefusedText(u8::from(refusal))),
        }
    }

    // Tells the kind of a pack.
    fn look_at_kind(&mut self, pack: u8) -> Result<(), AllocError>
        ensures told { OnOk result (Tells S.Shelf.packs M.BusMemory.contents self.old self.new (λ m. kind_text (kind_reply m.packs pack)) unchanged) }
        ensures kept { self.new.controller ≡ self.old.controller }
    {
        match self.controller.kind_of(pack) {
            Ok(kind) => write!(self.text, "{}", u8::from(kind)),
            Err(refusal) => write!(self.text, "{}", RefusedText(u8::from(refusal))),
        }
    }

    // Tells so many words of memory from an address on, each with a space before it.
    fn look_at_cells(&mut self, address: u32, count: u32) -> Result<(), AllocError>
        ensures told { OnOk result (Tells S.Shelf.packs M.BusMemory.contents self.old self.new (λ m. cells_text m.contents address count) unchanged) }
        ensures kept { self.new.controller ≡ self.old.controller }
    {
        // The definition goes from one address to the next, and so does the loop.
        let mut at = address;
        for _turn in 0..count {
            write!(self.text, " {}", CellText(self.controller.word_at(at)))?;
            at = at.saturating_add(2);
        }
        Ok(())
    }

    // Tells so many words of memory from an address on.
    fn look_at_memory(&mut self, address: u32, count: u32) -> Result<(), AllocError>
        ensures told { OnOk result (Tells S.Shelf.packs M.BusMemory.contents self.old self.new (λ m. memory_text m.contents address count) unchanged) }
        ensures kept { self.new.controller ≡ self.old.controller }
    {
        if count == 0 {
            return Ok(());
        }
        write!(self.text, "{}", CellText(self.controller.word_at(address)))?;
        self.look_at_cells(address.saturating_add(2), count - 1)
    }

    /// Tells what a look shows.
    pub(crate) fn look(&mut self, look: Look) -> Result<(), AllocError>
        ensures told { OnOk result (Tells S.Shelf.packs M.BusMemory.contents self.old self.new (look_text look) unchanged) }
        ensures kept { self.new.controller ≡ self.old.controller }
    {
        match look {
            Look::Sector { pack, block } => self.look_at_sector(pack, block),
            Look::Memory { address, count } => self.look_at_memory(address, count),
            Look::Kind { pack } => self.look_at_kind(pack),
        }
    }
}
