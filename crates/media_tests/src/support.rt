// What tests of several subjects share.
use media::kinds::Kind;
use media::memory::BusMemory;
use media::shelf::{SECTOR_WORDS, Shelf, ShelfRefusal};
use shelves::cards::Card;
use std::array;
use std::process::Abort;
use std::test::Fail;

/// How many words a pack of the first kind has.
pub(super) const RL01_WORDS: usize = 2_621_440;

/// A card whose words are all this one.
pub(super) fn card(pack: u8, block: u16, mark: u8, word: u16) -> Card {
    Card {
        pack,
        block,
        mark,
        words: [word; SECTOR_WORDS],
    }
}

/// A sector whose words tell their places.
pub(super) fn counted() -> [u16; SECTOR_WORDS] {
    array::from_fn(|place| (place as u16).wrapping_add(1))
}

/// Every word of a slice is this one.
pub(super) fn all_are(rt: &impl Abort, words: &[u16], word: u16) {
    assert!(rt; words.iter().all(|&each| each == word));
}

/// The word at an address is this one.
pub(super) fn reads<M: BusMemory>(rt: &impl Abort, memory: &M, address: u32, word: u16) {
    assert_eq!(rt; memory.read(address), Ok(word));
}

/// A word is written at an address, and read there again.
pub(super) fn writes<M: BusMemory>(
    rt: &impl Abort,
    memory: &mut M,
    address: u32,
    word: u16,
) -> Result<(), Fail> {
    memory.write(address, word)?;
    reads(rt, memory, address, word);
    Ok(())
}

/// A read and a write at an address are refused with this number, which tries the refusals' numbers too.
pub(super) fn no_word<M: BusMemory>(rt: &impl Abort, memory: &mut M, address: u32, number: u8) {
    assert_eq!(rt; memory.read(address).map_err(u8::from), Err(number));
    assert_eq!(rt; memory.write(address, 0o123).map_err(u8::from), Err(number));
}

/// A shelf has so many packs, the first and the last of these kinds.
pub(super) fn has_packs<S: Shelf>(rt: &impl Abort, shelf: &S, count: u8, first: Kind, last: Kind) {
    assert_eq!(rt; shelf.count(), count);
    assert!(rt; count > 0);
    assert_eq!(rt; shelf.kind(0), Ok(first));
    assert_eq!(rt; shelf.kind(count - 1), Ok(last));
    for missing in count..=255 {
        assert_eq!(rt; shelf.kind(missing), Err(ShelfRefusal::NoPack));
    }
}

/// A shelf has no packs.
pub(super) fn has_none<S: Shelf>(rt: &impl Abort, shelf: &mut S) {
    assert_eq!(rt; shelf.count(), 0);
    assert_eq!(rt; shelf.kind(0), Err(ShelfRefusal::NoPack));
    refused(rt, shelf, 0, 0, 128, 14);
}

/// A fetch into so many words and a store of so many are refused with this number, which tries the refusals' numbers too, and the words are left.
pub(super) fn refused<S: Shelf>(
    rt: &impl Abort,
    shelf: &mut S,
    pack: u8,
    block: u16,
    length: usize,
    number: u8,
) {
    let stored = [0o123; 129];
    let mut room = [0o456; 129];
    assert!(rt; length <= 129);
    let fetched = shelf.fetch(pack, block, &mut room[..length]);
    assert_eq!(rt; fetched.map_err(u8::from), Err(number));
    assert_eq!(rt; room, [0o456; 129]);
    let taken = shelf.store(pack, block, &stored[..length]);
    assert_eq!(rt; taken.map_err(u8::from), Err(number));
}

/// A store is refused with 15, and a fetch is not.
pub(super) fn does_not_take<S: Shelf>(
    rt: &impl Abort,
    shelf: &mut S,
    pack: u8,
    block: u16,
) -> Result<(), Fail> {
    let mut buffer = [0; SECTOR_WORDS];
    assert_eq!(rt;
        shelf.store(pack, block, &[0o123; SECTOR_WORDS]),
        Err(ShelfRefusal::NotTaking)
    );
    assert_eq!(rt; u8::from(ShelfRefusal::NotTaking), 15);
    shelf.fetch(pack, block, &mut buffer)?;
    Ok(())
}

/// Every word of a sector is this one, and its mark has this number.
pub(super) fn holds<S: Shelf>(
    rt: &impl Abort,
    shelf: &S,
    pack: u8,
    block: u16,
    word: u16,
    mark: u8,
) -> Result<(), Fail> {
    let mut buffer = [0o456; SECTOR_WORDS];
    let found = shelf.fetch(pack, block, &mut buffer)?;
    assert_eq!(rt; u8::from(found), mark);
    assert_eq!(rt; buffer, [word; SECTOR_WORDS]);
    Ok(())
}

/// A sector takes a store of this word throughout, and its mark then has this number.
pub(super) fn stores<S: Shelf>(
    rt: &impl Abort,
    shelf: &mut S,
    pack: u8,
    block: u16,
    word: u16,
    mark: u8,
) -> Result<(), Fail> {
    shelf.store(pack, block, &[word; SECTOR_WORDS])?;
    holds(rt, shelf, pack, block, word, mark)
}

/// A store of counted words is taken, and a fetch gives them back.
pub(super) fn takes<S: Shelf>(
    rt: &impl Abort,
    shelf: &mut S,
    pack: u8,
    block: u16,
) -> Result<(), Fail> {
    let mut buffer = [0; SECTOR_WORDS];
    shelf.store(pack, block, &counted())?;
    shelf.fetch(pack, block, &mut buffer)?;
    assert_eq!(rt; buffer, counted());
    Ok(())
}
