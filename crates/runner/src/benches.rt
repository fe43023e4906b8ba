// A script on its shelf and its memory.
ghost use Rattle.std.specs.Prelude.{◌≡◌, IfOk, Ok, Err, string_bytes, MatchResult};
ghost use Rattle.rl11.specs.Machine.{kinds_reply};
ghost use Rattle.script.specs.Scripts.{bench_of};
ghost use Rattle.runner.specs.Setups.{refused_drives, started_text, poked_memory, on_memory_text, on_shelf_text, shelf_made, bench_text};

use crate::answers::RefusedText;
use crate::numerals::LongOctal;
use crate::rooms::{deck, flat_length, room_for, zeros};
use crate::sessions::Session;
use exchanges::refusals::MakeRefusal;
use media::memory::BusMemory;
use media::shelf::Shelf;
use memories::board::Board;
use memories::stack::Stack;
use rl11::controller::Controller;
use script::scripts::{PokeLine, Script};
use script::setup::{MemorySetup, ShelfSetup};
use shelves::cards::CardShelf;
use shelves::flat::FlatShelf;
use std::alloc::{AllocError, Global};

/// A script to run, and the heap for what is told of it.
#[derive(Drop)]
pub(crate) struct Runner {
    pub(crate) heap: Global,
    pub(crate) script: Script,
}

// Puts words into a memory; the first that has no place is handed back.
fn poke<M: BusMemory>(memory: &mut M, pokes: &[PokeLine]) -> Result<(), PokeLine>
    ensures { MatchResult result (λ _. poked_memory (M.BusMemory.contents memory.old) pokes.now ≡ Ok (M.BusMemory.contents memory.new)) (λ p. poked_memory (M.BusMemory.contents memory.old) pokes.now ≡ Err p) }
{
    // `try_for_each` was tried here, and the proof did not close.
    for poke in pokes {
        memory.write(poke.address, poke.word).map_err(|_| *poke)?;
    }
    Ok(())
}

impl Runner {
    // Tells that the kinds of the drives are refused.
    fn refused_drives(&self, refusal: MakeRefusal) -> Result<String, AllocError>
        ensures { IfOk result (λ text. string_bytes text ≡ refused_drives self.now.script.drives refusal) }
    {
        let [first, second, third, fourth] = self.script.drives;
        let refused = RefusedText(u8::from(refusal));
        format!(in self.heap; "drives {first} {second} {third} {fourth} -> {refused}\n")
    }

    // Makes the controller, and runs the steps.
    fn start<S: Shelf + Drop, M: BusMemory + Drop>(
        &self,
        shelf: S,
        memory: M,
    ) -> Result<String, AllocError>
        ensures { IfOk result (λ text. string_bytes text ≡ started_text (bench_of self.now.script) (S.Shelf.packs shelf) (M.BusMemory.contents memory) (kinds_reply self.now.script.drives)) }
    {
        match Controller::new(self.script.drives, shelf, memory) {
            Ok(controller) => {
                let mut session = Session {
                    controller,
                    text: String::new(self.heap),
                };
                session.run(self.script.steps.as_slice())?;
                Ok(session.text)
            }
            Err(unmade) => self.refused_drives(unmade.refusal),
        }
    }

    // Puts the words into the memory, and goes on.
    fn on_memory<S: Shelf + Drop, M: BusMemory + Drop>(
        &self,
        shelf: S,
        mut memory: M,
    ) -> Result<String, AllocError>
        ensures { IfOk result (λ text. string_bytes text ≡ on_memory_text (bench_of self.now.script) (S.Shelf.packs shelf) (M.BusMemory.contents memory)) }
    {
        match poke(&mut memory, self.script.pokes.as_slice()) {
            Ok(()) => self.start(shelf, memory),
            Err(poke) => format!(in self.heap;
                "line {}: there is no memory word at {}\n",
                poke.line,
                LongOctal(poke.address)
            ),
        }
    }

    // Makes the memory, and goes on.
    fn on_shelf<S: Shelf + Drop>(&self, shelf: S) -> Result<String, AllocError>
        ensures { IfOk result (λ text. string_bytes text ≡ on_shelf_text (bench_of self.now.script) (S.Shelf.packs shelf)) }
    {
        match self.script.memory {
            MemorySetup::Board { words } => {
                let mut words = zeros(self.heap, words as usize)?;
                self.on_memory(shelf, Board::new(&mut words))
            }
            MemorySetup::Stack {
                border,
                lower,
                upper,
            } => {
                let mut lower = zeros(self.heap, lower as usize)?;
                let mut upper = zeros(self.heap, upper as usize)?;
                let memory = Stack::new(border, Board::new(&mut lower), Board::new(&mut upper));
                self.on_memory(shelf, memory)
            }
        }
    }

    // Makes the shelf, and goes on.
    fn on_bench(&self) -> Result<String, AllocError>
        ensures { IfOk result (λ text. string_bytes text ≡ on_shelf_text (bench_of self.now.script) (shelf_made self.now.script.shelf self.now.script.cards.items)) }
    {
        match self.script.shelf {
            ShelfSetup::Flat { kind } => {
                let mut words = zeros(self.heap, flat_length(kind))?;
                self.on_shelf(FlatShelf::new(kind, &mut words))
            }
            ShelfSetup::Cards { kinds, room } => {
                let mut cards = deck(self.heap, room as usize, self.script.cards.as_slice())?;
                self.on_shelf(CardShelf::new(kinds, &mut cards))
            }
        }
    }

    /// What is told of the script.
    pub(crate) fn told(&self) -> Result<String, AllocError>
        ensures { IfOk result (λ text. string_bytes text ≡ bench_text (bench_of self.now.script)) }
    {
        match self.script.cards.get(room_for(self.script.shelf)).copied() {
            Some(card) => {
                format!(in self.heap; "line {}: there is no room for this card\n", card.line)
            }
            None => self.on_bench(),
        }
    }
}
