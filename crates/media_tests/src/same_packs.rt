// Whether packs of two shelves are the same.
use crate::support::{RL01_WORDS, card};
use media::same::same;
use media::shelf::{SECTOR_WORDS, Shelf, ShelfRefusal};
use shelves::cards::{CardShelf, FREE};
use shelves::flat::FlatShelf;
use std::process::Abort;
use std::test::Fail;

const NO_PACK: ShelfRefusal = ShelfRefusal::NoPack;

// What two packs of two shelves have to say, whichever comes first.
fn both_ways<L: Shelf, R: Shelf>(
    rt: &impl Abort,
    left: &L,
    p: u8,
    right: &R,
    q: u8,
    wanted: Result<bool, ShelfRefusal>,
) {
    assert_eq!(rt; same(left, p, right, q), wanted);
    assert_eq!(rt; same(right, q, left, p), wanted);
}

#[test]
fn flat_packs(rt: HostRuntime) -> Result<(), Fail> {
    let mut one = vec![in rt.alloc(); 5; RL01_WORDS]?;
    let mut two = vec![in rt.alloc(); 5; RL01_WORDS]?;
    assert!(rt; two.len() == RL01_WORDS);
    let left = FlatShelf::new(1, &mut one);
    both_ways(&rt, &left, 0, &FlatShelf::new(1, &mut two), 0, Ok(true));
    two[RL01_WORDS - 1] = 6;
    both_ways(&rt, &left, 0, &FlatShelf::new(1, &mut two), 0, Ok(false));
    two[RL01_WORDS - 1] = 5;
    two[0] = 6;
    both_ways(&rt, &left, 0, &FlatShelf::new(1, &mut two), 0, Ok(false));
    Ok(())
}

#[test]
fn a_flat_pack_and_one_on_cards(rt: HostRuntime) -> Result<(), Fail> {
    let mut words = vec![in rt.alloc(); 0; RL01_WORDS]?;
    let mut cards = [card(1, 20_479, 0, 0), card(0, 0, 0, 0)];
    let flat = FlatShelf::new(1, &mut words);
    let mut shelf = CardShelf::new([1, 1, 2, 0, 0, 0, 0, 0], &mut cards);
    shelf.store(0, 0, &[6; SECTOR_WORDS])?;
    both_ways(&rt, &flat, 0, &shelf, 0, Ok(false));
    both_ways(&rt, &flat, 0, &shelf, 1, Ok(true));
    both_ways(&rt, &flat, 0, &shelf, 2, Ok(false));
    shelf.store(0, 0, &[0; SECTOR_WORDS])?;
    both_ways(&rt, &flat, 0, &shelf, 0, Ok(true));
    Ok(())
}

#[test]
fn missing_packs(rt: HostRuntime) -> Result<(), Fail> {
    let mut words = vec![in rt.alloc(); 0; RL01_WORDS]?;
    let mut cards = [card(0, 0, 0, 0)];
    let shelf = CardShelf::new([2, 0, 0, 0, 0, 0, 0, 0], &mut cards);
    let flat = FlatShelf::new(1, &mut words);
    both_ways(&rt, &flat, 1, &shelf, 0, Err(NO_PACK));
    both_ways(&rt, &flat, 255, &shelf, 1, Err(NO_PACK));
    both_ways(&rt, &FlatShelf::new(1, &mut []), 0, &shelf, 0, Err(NO_PACK));
    assert_eq!(rt; u8::from(NO_PACK), 9);
    Ok(())
}

#[test]
fn packs_of_one_shelf(rt: HostRuntime) -> Result<(), Fail> {
    let mut cards = [card(1, 40_959, 3, 0), card(FREE, 0, 0, 0)];
    let mut shelf = CardShelf::new([2, 2, 1, 0, 0, 0, 0, 0], &mut cards);
    both_ways(&rt, &shelf, 0, &shelf, 0, Ok(true));
    both_ways(&rt, &shelf, 0, &shelf, 1, Ok(true));
    both_ways(&rt, &shelf, 0, &shelf, 2, Ok(false));
    shelf.store(1, 40_959, &[6; SECTOR_WORDS])?;
    both_ways(&rt, &shelf, 0, &shelf, 1, Ok(false));
    both_ways(&rt, &shelf, 0, &shelf, 3, Err(NO_PACK));
    Ok(())
}
