// A backup to restore.
use media::marks::Mark;
use media::shelf::SECTOR_WORDS;
use shelves::cards::Card;
use std::alloc::{AllocError, Global};

const CARDS: u16 = 320;

// One sector in 64 of an RL01 pack, some of them damaged and some with a header that cannot be read.
pub fn sample_cards(heap: Global) -> Result<Vec<Card>, AllocError> {
    (0..CARDS).map(sample_card).collect(heap)
}

fn sample_card(i: u16) -> Card {
    let block = i.wrapping_mul(64);
    let mark = Mark {
        unreadable: i % 64 == 9,
        damaged: i % 40 == 7 || i == 137,
    };
    Card {
        pack: 0,
        block,
        mark: u8::from(mark),
        words: if mark.unreadable {
            [0; SECTOR_WORDS]
        } else {
            sample_words(block)
        },
    }
}

// Words that follow from the first of them.
fn sample_words(first: u16) -> [u16; SECTOR_WORDS] {
    let mut words = [0; SECTOR_WORDS];
    let mut next = first;
    // A loop, since each word follows from the one before it; `successors` would be no shorter.
    for word in &mut words {
        *word = next;
        next = next.wrapping_mul(5).wrapping_add(1);
    }
    words
}
