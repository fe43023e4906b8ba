// Copies of packs: what stops them, and what they list.
use crate::support::{RL01_WORDS, card, holds};
use backup::copy::{CopyError, copy_pack};
use makes::stamp::Stamp;
use media::kinds::Kind;
use media::marks::Mark;
use media::shelf::{SECTOR_WORDS, Shelf, ShelfRefusal};
use shelves::cards::{CardShelf, FREE};
use shelves::flat::FlatShelf;
use std::alloc::Global;
use std::process::Abort;
use std::test::Fail;

// A pack that is the same all over, copied to the first pack of a shelf, which declines.
fn stops<T: Shelf>(rt: &impl Abort, heap: Global, kind: Kind, to: &mut T, why: CopyError) {
    let source = Stamp::new(kind, [7; SECTOR_WORDS], Mark::CLEAN);
    assert_eq!(rt; copy_pack(heap, &source, 0, to, 0).err(), Some(why));
}

#[test]
fn packs_that_do_not_fit(rt: HostRuntime) -> Result<(), Fail> {
    let mut cards = [card(FREE, 0, 0, 0); 2];
    let mut other = CardShelf::new([2, 0, 0, 0, 0, 0, 0, 0], &mut cards);
    stops(
        &rt,
        rt.alloc(),
        Kind::Rl01,
        &mut other,
        CopyError::KindsDiffer,
    );
    holds(&rt, &other, 0, 0, 0, 0)?;
    let mut none = CardShelf::new([0; 8], &mut cards);
    stops(
        &rt,
        rt.alloc(),
        Kind::Rl01,
        &mut none,
        CopyError::Declined(ShelfRefusal::NoPack),
    );
    assert_eq!(rt; cards[0].pack, FREE);
    Ok(())
}

#[test]
fn cards_that_run_out(rt: HostRuntime) -> Result<(), Fail> {
    let mut cards = [card(FREE, 0, 0, 0); 3];
    let mut few = CardShelf::new([2, 1, 0, 0, 0, 0, 0, 0], &mut cards);
    stops(
        &rt,
        rt.alloc(),
        Kind::Rl02,
        &mut few,
        CopyError::Declined(ShelfRefusal::NotTaking),
    );
    holds(&rt, &few, 0, 2, 7, 0)?;
    holds(&rt, &few, 0, 3, 0, 0)
}

#[test]
fn marked_sectors_are_listed(rt: HostRuntime) -> Result<(), Fail> {
    let mut cards = [card(0, 9, 3, 7), card(0, 5, 0, 7)];
    let source = CardShelf::new([1, 0, 0, 0, 0, 0, 0, 0], &mut cards);
    let mut words = vec![in rt.alloc(); 1; RL01_WORDS]?;
    let mut target = FlatShelf::new(1, &mut words);
    let left_out = copy_pack(rt.alloc(), &source, 0, &mut target, 0)?;
    assert!(rt; left_out.len() == 1);
    assert_eq!(rt; left_out[0].block, 9);
    assert_eq!(rt; u8::from(left_out[0].mark), 3);
    holds(&rt, &target, 0, 5, 7, 0)?;
    holds(&rt, &target, 0, 9, 1, 0)?;
    holds(&rt, &target, 0, 20_479, 0, 0)
}
