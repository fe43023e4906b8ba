// Packs whose sectors stand on cards.
use crate::support::{card, does_not_take, has_none, has_packs, holds, refused, stores, takes};
use media::kinds::Kind;
use media::shelf::Shelf;
use shelves::cards::{CardShelf, FREE};
use std::test::Fail;

// Two packs, the second of the larger kind; what follows the 0 does not count.
const TWO: [u8; 8] = [1, 2, 0, 1, 1, 1, 1, 1];

#[test]
fn packs_up_to_the_first_that_is_none(rt: HostRuntime) {
    let mut cards = [card(0, 0, 0, 5)];
    has_packs(
        &rt,
        &CardShelf::new(TWO, &mut cards),
        2,
        Kind::Rl01,
        Kind::Rl02,
    );
    let eight = CardShelf::new([2, 1, 1, 2, 1, 1, 1, 1], &mut cards);
    has_packs(&rt, &eight, 8, Kind::Rl02, Kind::Rl01);
    assert_eq!(rt; eight.kind(3), Ok(Kind::Rl02));
    has_none(
        &rt,
        &mut CardShelf::new([3, 1, 1, 1, 1, 1, 1, 1], &mut cards),
    );
    has_none(&rt, &mut CardShelf::new([0; 8], &mut cards));
    assert_eq!(rt; cards, [card(0, 0, 0, 5)]);
}

#[test]
fn missing_sectors(rt: HostRuntime) {
    let mut cards = [card(FREE, 0, 0, 5), card(2, 0, 0, 6)];
    let mut shelf = CardShelf::new(TWO, &mut cards);
    for pack in [2, 3, 7, 8, 255] {
        refused(&rt, &mut shelf, pack, 0, 128, 14);
    }
    refused(&rt, &mut shelf, 0, 20_480, 128, 14);
    refused(&rt, &mut shelf, 1, 40_960, 128, 14);
    drop(shelf);
    assert_eq!(rt; cards, [card(FREE, 0, 0, 5), card(2, 0, 0, 6)]);
}

#[test]
fn last_sectors(rt: HostRuntime) -> Result<(), Fail> {
    let mut cards = [card(FREE, 0, 0, 0); 2];
    let mut shelf = CardShelf::new([1, 1, 1, 1, 1, 1, 1, 2], &mut cards);
    takes(&rt, &mut shelf, 0, 20_479)?;
    takes(&rt, &mut shelf, 7, 40_959)?;
    refused(&rt, &mut shelf, 0, 20_480, 128, 14);
    refused(&rt, &mut shelf, 7, 40_960, 128, 14);
    refused(&rt, &mut shelf, 8, 0, 128, 14);
    Ok(())
}

#[test]
fn without_a_card(rt: HostRuntime) -> Result<(), Fail> {
    let mut cards = [card(0, 1, 3, 5), card(1, 0, 3, 6), card(FREE, 0, 3, 7)];
    let shelf = CardShelf::new(TWO, &mut cards);
    holds(&rt, &shelf, 0, 0, 0, 0)?;
    holds(&rt, &shelf, 0, 1, 5, 3)?;
    holds(&rt, &shelf, 1, 0, 6, 3)?;
    holds(&rt, &shelf, 1, 1, 0, 0)?;
    holds(&rt, &CardShelf::new(TWO, &mut []), 1, 40_959, 0, 0)
}

#[test]
fn first_store_claims_the_first_free_card(rt: HostRuntime) -> Result<(), Fail> {
    let free = card(FREE, 4, 3, 6);
    let mut cards = [card(0, 9, 2, 5), free, card(1, 4, 1, 7), free];
    let mut shelf = CardShelf::new(TWO, &mut cards);
    stores(&rt, &mut shelf, 0, 4, 8, 0)?;
    drop(shelf);
    assert_eq!(rt;
        cards,
        [card(0, 9, 2, 5), card(0, 4, 0, 8), card(1, 4, 1, 7), free]
    );
    Ok(())
}

#[test]
fn second_store_keeps_the_card(rt: HostRuntime) -> Result<(), Fail> {
    let free = card(FREE, 4, 3, 6);
    let mut cards = [free, free];
    let mut shelf = CardShelf::new(TWO, &mut cards);
    stores(&rt, &mut shelf, 1, 4, 8, 0)?;
    stores(&rt, &mut shelf, 1, 4, 9, 0)?;
    drop(shelf);
    assert_eq!(rt; cards, [card(1, 4, 0, 9), free]);
    Ok(())
}

#[test]
fn marks_are_read_and_mended(rt: HostRuntime) -> Result<(), Fail> {
    for (raw, mark, mended) in [(1, 1, 1), (2, 2, 0), (3, 3, 1), (7, 3, 1), (254, 2, 0)] {
        let mut cards = [card(0, 4, raw, 6)];
        let mut shelf = CardShelf::new(TWO, &mut cards);
        holds(&rt, &shelf, 0, 4, 6, mark)?;
        stores(&rt, &mut shelf, 0, 4, 8, mended)?;
        drop(shelf);
        assert_eq!(rt; cards[0].mark % 4, mended);
    }
    Ok(())
}

#[test]
fn full_shelf(rt: HostRuntime) -> Result<(), Fail> {
    let mut cards = [card(0, 0, 0, 5), card(0, 1, 0, 6)];
    let mut shelf = CardShelf::new(TWO, &mut cards);
    does_not_take(&rt, &mut shelf, 0, 2)?;
    does_not_take(&rt, &mut shelf, 1, 0)?;
    refused(&rt, &mut shelf, 2, 0, 128, 14);
    refused(&rt, &mut shelf, 0, 20_480, 128, 14);
    drop(shelf);
    assert_eq!(rt; cards, [card(0, 0, 0, 5), card(0, 1, 0, 6)]);
    Ok(())
}

#[test]
fn full_shelf_takes_where_a_card_is(rt: HostRuntime) -> Result<(), Fail> {
    let mut cards = [card(0, 0, 0, 5), card(FREE, 0, 0, 0)];
    let mut shelf = CardShelf::new(TWO, &mut cards);
    takes(&rt, &mut shelf, 1, 7)?;
    does_not_take(&rt, &mut shelf, 1, 8)?;
    stores(&rt, &mut shelf, 0, 0, 8, 0)?;
    stores(&rt, &mut shelf, 1, 7, 9, 0)?;
    drop(shelf);
    assert_eq!(rt; cards, [card(0, 0, 0, 8), card(1, 7, 0, 9)]);
    Ok(())
}

#[test]
fn the_first_of_two_cards_counts(rt: HostRuntime) -> Result<(), Fail> {
    let mut cards = [card(FREE, 0, 0, 0), card(0, 4, 0, 5), card(0, 4, 3, 6)];
    let mut shelf = CardShelf::new(TWO, &mut cards);
    holds(&rt, &shelf, 0, 4, 5, 0)?;
    stores(&rt, &mut shelf, 0, 4, 8, 0)?;
    drop(shelf);
    assert_eq!(rt;
        cards,
        [card(FREE, 0, 0, 0), card(0, 4, 0, 8), card(0, 4, 3, 6)]
    );
    Ok(())
}

#[test]
fn cards_of_missing_packs(rt: HostRuntime) -> Result<(), Fail> {
    let mut cards = [card(5, 4, 0, 5), card(254, 4, 0, 6)];
    let mut shelf = CardShelf::new(TWO, &mut cards);
    refused(&rt, &mut shelf, 5, 4, 128, 14);
    refused(&rt, &mut shelf, 254, 4, 128, 14);
    holds(&rt, &shelf, 0, 4, 0, 0)?;
    does_not_take(&rt, &mut shelf, 0, 4)?;
    drop(shelf);
    assert_eq!(rt; cards, [card(5, 4, 0, 5), card(254, 4, 0, 6)]);
    Ok(())
}

#[test]
fn wrong_buffers(rt: HostRuntime) {
    let mut cards = [card(0, 0, 3, 5)];
    let mut shelf = CardShelf::new(TWO, &mut cards);
    for length in [0, 127, 129] {
        refused(&rt, &mut shelf, 0, 0, length, 13);
        refused(&rt, &mut shelf, 0, 1, length, 13);
        refused(&rt, &mut shelf, 2, 0, length, 13);
    }
    drop(shelf);
    assert_eq!(rt; cards, [card(0, 0, 3, 5)]);
}
