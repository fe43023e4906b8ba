// A shelf that repeats one sector, alone and beside the shelves of the library.
use crate::stamp::Stamp;
use media::kinds::Kind;
use media::marks::Mark;
use media::same::same;
use media::shelf::{SECTOR_WORDS, Shelf, ShelfRefusal};
use shelves::cards::{Card, CardShelf};
use shelves::flat::FlatShelf;
use std::test::Fail;

const RL01_WORDS: usize = 2_621_440;

fn damaged_sevens() -> Stamp {
    Stamp::new(Kind::Rl01, [7; SECTOR_WORDS], Mark::from(2))
}

#[test]
fn one_pack(rt: HostRuntime) {
    let stamp = damaged_sevens();
    assert_eq!(rt; stamp.count(), 1);
    assert_eq!(rt; stamp.kind(0), Ok(Kind::Rl01));
    assert_eq!(rt; stamp.kind(1), Err(ShelfRefusal::NoPack));
    assert_eq!(rt; stamp.kind(255), Err(ShelfRefusal::NoPack));
}

#[test]
fn every_sector_is_the_same(rt: HostRuntime) {
    let stamp = damaged_sevens();
    let mut first = [0; SECTOR_WORDS];
    let mut last = [0; SECTOR_WORDS];
    assert_eq!(rt; stamp.fetch(0, 0, &mut first), Ok(Mark::from(2)));
    assert_eq!(rt; stamp.fetch(0, 20_479, &mut last), Ok(Mark::from(2)));
    assert_eq!(rt; first, [7; SECTOR_WORDS]);
    assert_eq!(rt; last, [7; SECTOR_WORDS]);
}

#[test]
fn refused_fetches_leave_the_buffer(rt: HostRuntime) {
    let stamp = damaged_sevens();
    let mut short = [1; 127];
    let mut whole = [1; SECTOR_WORDS];
    assert_eq!(rt;
        stamp.fetch(1, 20_480, &mut short),
        Err(ShelfRefusal::BufferLength)
    );
    assert_eq!(rt;
        stamp.fetch(0, 20_480, &mut whole),
        Err(ShelfRefusal::NoSector)
    );
    assert_eq!(rt; stamp.fetch(1, 0, &mut whole), Err(ShelfRefusal::NoSector));
    assert_eq!(rt; short, [1; 127]);
    assert_eq!(rt; whole, [1; SECTOR_WORDS]);
}

#[test]
fn nothing_takes(rt: HostRuntime) {
    let mut stamp = damaged_sevens();
    let mut buffer = [0; SECTOR_WORDS];
    assert_eq!(rt;
        stamp.store(1, 0, &[5; 129]),
        Err(ShelfRefusal::BufferLength)
    );
    assert_eq!(rt; stamp.store(1, 0, &[5; 128]), Err(ShelfRefusal::NoSector));
    assert_eq!(rt;
        stamp.store(0, 20_480, &[5; 128]),
        Err(ShelfRefusal::NoSector)
    );
    assert_eq!(rt; stamp.store(0, 0, &[5; 128]), Err(ShelfRefusal::NotTaking));
    assert_eq!(rt; stamp.fetch(0, 0, &mut buffer), Ok(Mark::from(2)));
    assert_eq!(rt; buffer, [7; SECTOR_WORDS]);
}

#[test]
fn same_as_a_flat_pack(rt: HostRuntime) -> Result<(), Fail> {
    let mut words = vec![in rt.alloc(); 7; RL01_WORDS]?;
    let mut flat = FlatShelf::new(1, &mut words);
    let larger = Stamp::new(Kind::Rl02, [7; SECTOR_WORDS], Mark::CLEAN);
    assert_eq!(rt; same(&damaged_sevens(), 0, &flat, 0), Ok(true));
    assert_eq!(rt; same(&larger, 0, &flat, 0), Ok(false));
    assert_eq!(rt; same(&larger, 1, &flat, 0), Err(ShelfRefusal::NoPack));
    assert_eq!(rt; same(&larger, 0, &flat, 1), Err(ShelfRefusal::NoPack));
    assert_eq!(rt; flat.store(0, 20_479, &[8; SECTOR_WORDS]), Ok(()));
    assert_eq!(rt; same(&flat, 0, &damaged_sevens(), 0), Ok(false));
    Ok(())
}

#[test]
fn same_as_a_pack_on_cards(rt: HostRuntime) {
    let card = Card {
        pack: 1,
        block: 3,
        mark: 0,
        words: [0; SECTOR_WORDS],
    };
    let mut cards = [card];
    let mut shelf = CardShelf::new([1, 2, 0, 0, 0, 0, 0, 0], &mut cards);
    let blank = Stamp::new(Kind::Rl02, [0; SECTOR_WORDS], Mark::CLEAN);
    assert_eq!(rt; same(&blank, 0, &shelf, 0), Ok(false));
    assert_eq!(rt; same(&blank, 0, &shelf, 1), Ok(true));
    assert_eq!(rt; same(&blank, 0, &shelf, 2), Err(ShelfRefusal::NoPack));
    assert_eq!(rt; shelf.store(1, 3, &[1; SECTOR_WORDS]), Ok(()));
    assert_eq!(rt; same(&blank, 0, &shelf, 1), Ok(false));
}
