// How a script sets a bench up.
ghost use Rattle.std.specs.Prelude.{◌≡◌, ℕ, List, Result};
ghost use Rattle.script.specs.Arguments.{and_then};
ghost use Rattle.script.specs.Setup.{with_kinds, drives_setup, flat_setup, roomy, cards_setup, shelf_setup, filled, card_setup, poke_setup, board_setup, stack_setup};
ghost use Rattle.script.specs.declared.faults.Fault.{Fault};
ghost use Rattle.script.specs.declared.setup.Setup.{Setup};

use crate::faults::Fault;
use crate::numbers::Base;
use crate::words::Words;
use media::shelf::SECTOR_WORDS;
use shelves::cards::Card;

/// A shelf of packs.
// Kinds are the numbers that the script has, also those of no kind: what comes of them, the shelf and the controller say.
#[derive(Clone, Copy, PartialEq, Eq, Debug)]
pub enum ShelfSetup {
    /// One pack of this kind, all of whose words are zero.
    Flat { kind: u8 },
    /// Eight packs of these kinds, with room for so many cards.
    Cards { kinds: [u8; 8], room: u32 },
}

/// A bus memory.
#[derive(Clone, Copy, PartialEq, Eq, Debug)]
pub enum MemorySetup {
    /// A board of so many words.
    Board { words: u32 },
    /// Two boards of so many words, the upper one from an address on.
    Stack { border: u32, lower: u32, upper: u32 },
}

/// A line of a script that sets the bench up.
#[derive(Clone, Copy, PartialEq, Eq, Debug)]
pub(crate) enum Setup {
    /// The kinds of the four units.
    Drives([u8; 4]),
    Shelf(ShelfSetup),
    /// The next free card.
    Card(Card),
    Memory(MemorySetup),
    /// Words put into memory from an address on; the line goes on with them.
    Poke { address: u32 },
}

// So many kinds. What is read after them, whatever it is, is read of the words that are left.
fn take_kinds<const N: usize>(words: &mut Words) -> Result<[u8; N], Fault>
    ensures { (f : List ℕ → List (List ℕ) → Result Setup Fault) → with_kinds N f words.old ≡ and_then result (λ kinds. f kinds words.new) }
{
    let mut kinds = [0; N];
    for kind in kinds.iter_mut() {
        *kind = words.take_u8()?;
    }
    Ok(kinds)
}

/// The kinds of the four units.
pub(crate) fn take_drives(words: &mut Words) -> Result<Setup, Fault>
    ensures { result ≡ drives_setup words.old }
{
    let kinds = take_kinds(words)?;
    words.close(Setup::Drives(kinds))
}

/// A flat shelf: its kind.
pub(crate) fn take_flat(words: &mut Words) -> Result<Setup, Fault>
    ensures { result ≡ flat_setup words.old }
{
    let kind = words.take_u8()?;
    words.close(Setup::Shelf(ShelfSetup::Flat { kind }))
}

/// A shelf of either make.
pub(crate) fn take_shelf(words: &mut Words) -> Result<Setup, Fault>
    ensures { result ≡ shelf_setup words.old }
{
    match words.next_word()? {
        b"flat" => take_flat(words),
        b"cards" => take_cards(words),
        _ => Err(Fault::UnknownWord),
    }
}

/// A card shelf: its eight kinds, and its room.
pub(crate) fn take_cards(words: &mut Words) -> Result<Setup, Fault>
    ensures { result ≡ cards_setup words.old }
{
    let kinds = take_kinds(words)?;
    take_room(words, kinds)
}

// The room of a card shelf of these kinds.
fn take_room(words: &mut Words, kinds: [u8; 8]) -> Result<Setup, Fault>
    ensures { result ≡ roomy kinds words.old }
{
    words.take_word(b"room")?;
    let room = words.take_number(Base::Decimal, u32::MAX)?;
    words.close(Setup::Shelf(ShelfSetup::Cards { kinds, room }))
}

// The words of a card, of which those that the line does not give are zero.
fn take_contents(words: &mut Words) -> Result<[u16; SECTOR_WORDS], Fault>
    ensures { result ≡ filled 128 words.old }
{
    let mut contents = [0; SECTOR_WORDS];
    // With `iter_mut().zip(..)` the proof did not close.
    for place in contents.iter_mut() {
        if words.is_empty() {
            return Ok(contents);
        }
        *place = words.take_u16(Base::Octal)?;
    }
    words.close(contents)
}

/// A card: a pack, a block, a mark and words.
pub(crate) fn take_card(words: &mut Words) -> Result<Setup, Fault>
    ensures { result ≡ card_setup words.old }
{
    let pack = words.take_u8()?;
    let block = words.take_u16(Base::Decimal)?;
    let mark = words.take_u8()?;
    let contents = take_contents(words)?;
    Ok(Setup::Card(Card {
        pack,
        block,
        mark,
        words: contents,
    }))
}

/// A board: how many words it has.
pub(crate) fn take_board(words: &mut Words) -> Result<Setup, Fault>
    ensures { result ≡ board_setup words.old }
{
    let count = words.take_number(Base::Decimal, u32::MAX)?;
    words.close(Setup::Memory(MemorySetup::Board { words: count }))
}

/// Words for memory: the address of the first.
pub(crate) fn take_poke(words: &mut Words) -> Result<Setup, Fault>
    ensures { result ≡ poke_setup words.old }
{
    let address = words.take_number(Base::Octal, u32::MAX)?;
    Ok(Setup::Poke { address })
}

/// A stack of two boards: the border, and how many words each has.
pub(crate) fn take_stack(words: &mut Words) -> Result<Setup, Fault>
    ensures { result ≡ stack_setup words.old }
{
    let border = words.take_number(Base::Octal, u32::MAX)?;
    let lower = words.take_number(Base::Decimal, u32::MAX)?;
    let upper = words.take_number(Base::Decimal, u32::MAX)?;
    words.close(Setup::Memory(MemorySetup::Stack {
        border,
        lower,
        upper,
    }))
}
