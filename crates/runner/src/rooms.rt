// The words and the cards that a shelf and a memory are made of.
ghost use Rattle.std.specs.Prelude.{◌≡◌, map, replicate, IfOk};
ghost use Rattle.runner.specs.Setups.{flat_length, room_for, deck_made};

use media::kinds::Kind;
use media::shelf::SECTOR_WORDS;
use script::scripts::CardLine;
use script::setup::ShelfSetup;
use shelves::cards::{Card, FREE};
use std::alloc::{AllocError, Global};

const FREE_CARD: Card = Card {
    pack: FREE,
    block: 0,
    mark: 0,
    words: [0; SECTOR_WORDS],
};

/// So many zero words.
pub(crate) fn zeros(heap: Global, count: usize) -> Result<Vec<u16>, AllocError>
    ensures { IfOk result (λ v. v.items ≡ replicate count 0) }
{
    vec![in heap; 0u16; count]
}

/// How many words a flat shelf has.
// The kind is the number that the script has, which may be no kind's.
pub(crate) fn flat_length(kind: u8) -> usize
    ensures { result ≡ flat_length kind }
{
    Kind::try_from(kind).map_or(0, |kind| usize::from(kind.blocks()) * SECTOR_WORDS)
}

/// For how many cards there is room.
pub(crate) fn room_for(shelf: ShelfSetup) -> usize
    ensures { result ≡ room_for shelf }
{
    match shelf {
        ShelfSetup::Flat { .. } => 0,
        ShelfSetup::Cards { room, .. } => room as usize,
    }
}

// The cards of a script.
fn script_cards(heap: Global, lines: &[CardLine]) -> Result<Vec<Card>, AllocError>
    ensures { IfOk result (λ v. v.items ≡ map (λ c. c.card) lines.now) }
{
    lines.iter().map(|line| line.card).collect(heap)
}

/// The cards of a script, and free ones for the rest of the room.
pub(crate) fn deck(heap: Global, room: usize, lines: &[CardLine]) -> Result<Vec<Card>, AllocError>
    ensures { IfOk result (λ v. v.items ≡ deck_made room lines.now) }
{
    let mut cards = script_cards(heap, lines)?;
    // Just so many places more, since `resize` by itself would ask for room for twice the cards of the script.
    cards.reserve_exact(room.saturating_sub(lines.len()))?;
    cards.resize(room.max(lines.len()), FREE_CARD)?;
    Ok(cards)
}
