// One pack in a slice of words.
use crate::support::{RL01_WORDS, all_are, has_none, has_packs, holds, refused, stores, takes};
use media::kinds::Kind;
use shelves::flat::FlatShelf;
use std::alloc::Global;
use std::process::Abort;
use std::test::Fail;

// A shelf of the kind with this number, which may be no kind's, over so many words has no packs.
fn none_over(rt: &impl Abort, heap: Global, kind: u8, length: usize) -> Result<(), Fail> {
    let mut words = vec![in heap; 5; length]?;
    has_none(rt, &mut FlatShelf::new(kind, &mut words));
    all_are(rt, &words, 5);
    Ok(())
}

#[test]
fn one_pack_of_either_kind(rt: HostRuntime) -> Result<(), Fail> {
    let mut small = vec![in rt.alloc(); 0; RL01_WORDS]?;
    let mut large = vec![in rt.alloc(); 0; 2 * RL01_WORDS]?;
    has_packs(
        &rt,
        &FlatShelf::new(1, &mut small),
        1,
        Kind::Rl01,
        Kind::Rl01,
    );
    has_packs(
        &rt,
        &FlatShelf::new(2, &mut large),
        1,
        Kind::Rl02,
        Kind::Rl02,
    );
    Ok(())
}

#[test]
fn numbers_that_are_no_kind(rt: HostRuntime) -> Result<(), Fail> {
    for kind in [0, 3, 255] {
        none_over(&rt, rt.alloc(), kind, RL01_WORDS)?;
    }
    Ok(())
}

#[test]
fn wrong_lengths(rt: HostRuntime) -> Result<(), Fail> {
    for length in [0, 128, RL01_WORDS - 1, RL01_WORDS + 1, 2 * RL01_WORDS] {
        none_over(&rt, rt.alloc(), 1, length)?;
    }
    none_over(&rt, rt.alloc(), 2, RL01_WORDS)?;
    none_over(&rt, rt.alloc(), 2, 2 * RL01_WORDS - 1)?;
    none_over(&rt, rt.alloc(), 2, 2 * RL01_WORDS + 1)
}

#[test]
fn wrong_buffers(rt: HostRuntime) -> Result<(), Fail> {
    let mut words = vec![in rt.alloc(); 5; RL01_WORDS]?;
    let mut shelf = FlatShelf::new(1, &mut words);
    for length in [0, 127, 129] {
        refused(&rt, &mut shelf, 0, 0, length, 13);
        refused(&rt, &mut shelf, 0, 20_480, length, 13);
        refused(&rt, &mut shelf, 1, 0, length, 13);
    }
    drop(shelf);
    all_are(&rt, &words, 5);
    Ok(())
}

#[test]
fn missing_sectors(rt: HostRuntime) -> Result<(), Fail> {
    let mut words = vec![in rt.alloc(); 5; RL01_WORDS]?;
    let mut shelf = FlatShelf::new(1, &mut words);
    for pack in [1, 7, 8, 255] {
        refused(&rt, &mut shelf, pack, 0, 128, 14);
    }
    refused(&rt, &mut shelf, 0, 20_480, 128, 14);
    refused(&rt, &mut shelf, 0, 65_535, 128, 14);
    drop(shelf);
    all_are(&rt, &words, 5);
    Ok(())
}

#[test]
fn first_and_last_sectors(rt: HostRuntime) -> Result<(), Fail> {
    let mut words = vec![in rt.alloc(); 5; 2 * RL01_WORDS]?;
    let mut shelf = FlatShelf::new(2, &mut words);
    takes(&rt, &mut shelf, 0, 0)?;
    takes(&rt, &mut shelf, 0, 20_480)?;
    takes(&rt, &mut shelf, 0, 40_959)?;
    holds(&rt, &shelf, 0, 1, 5, 0)?;
    holds(&rt, &shelf, 0, 20_479, 5, 0)?;
    holds(&rt, &shelf, 0, 40_958, 5, 0)?;
    refused(&rt, &mut shelf, 0, 40_960, 128, 14);
    Ok(())
}

#[test]
fn neighbours_stay(rt: HostRuntime) -> Result<(), Fail> {
    let mut words = vec![in rt.alloc(); 5; RL01_WORDS]?;
    let mut shelf = FlatShelf::new(1, &mut words);
    stores(&rt, &mut shelf, 0, 20_478, 6, 0)?;
    holds(&rt, &shelf, 0, 20_477, 5, 0)?;
    holds(&rt, &shelf, 0, 20_479, 5, 0)?;
    drop(shelf);
    assert!(rt; words.len() == RL01_WORDS);
    all_are(&rt, &words[0..2_621_184], 5);
    all_are(&rt, &words[2_621_184..2_621_312], 6);
    all_are(&rt, &words[2_621_312..RL01_WORDS], 5);
    Ok(())
}
