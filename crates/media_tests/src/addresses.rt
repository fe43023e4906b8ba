// Blocks, header words and check words.
use media::address::{AddressRefusal, Place, check_word};
use std::process::Abort;

const NO_SECTOR: AddressRefusal = AddressRefusal::NoSector;

fn at(cylinder: u16, head: u8, sector: u8) -> Place {
    Place {
        cylinder,
        head,
        sector,
    }
}

// A place that is there, and the two numbers that name it. Kinds are numbers in these tests, since some are no kind's.
fn named(rt: &impl Abort, kind: u8, place: Place, block: u16, header: u16) {
    assert_eq!(rt; place.block(kind), Ok(block));
    assert_eq!(rt; place.header(kind), Ok(header));
    assert_eq!(rt; Place::from_block(kind, block), Ok(place));
    assert_eq!(rt; Place::from_header(kind, header), Ok(place));
}

// A place that is not there.
fn refused(rt: &impl Abort, kind: u8, place: Place) {
    assert_eq!(rt; place.block(kind), Err(NO_SECTOR));
    assert_eq!(rt; place.header(kind), Err(NO_SECTOR));
}

#[test]
fn places_of_an_rl01(rt: HostRuntime) {
    named(&rt, 1, at(0, 0, 0), 0, 0);
    named(&rt, 1, at(0, 0, 39), 39, 0o47);
    named(&rt, 1, at(0, 1, 0), 40, 0o100);
    named(&rt, 1, at(3, 1, 5), 285, 0o705);
    named(&rt, 1, at(255, 1, 39), 20_479, 0o77747);
    refused(&rt, 1, at(256, 0, 0));
    refused(&rt, 1, at(0, 2, 0));
    refused(&rt, 1, at(0, 0, 40));
    refused(&rt, 1, at(u16::MAX, u8::MAX, u8::MAX));
}

#[test]
fn places_of_an_rl02(rt: HostRuntime) {
    named(&rt, 2, at(256, 0, 0), 20_480, 0o100000);
    named(&rt, 2, at(511, 1, 39), 40_959, 0o177747);
    refused(&rt, 2, at(512, 0, 0));
    refused(&rt, 2, at(511, 2, 39));
    refused(&rt, 2, at(511, 1, 40));
}

#[test]
fn no_places_on_no_kind(rt: HostRuntime) {
    for kind in [0, 3, 255] {
        refused(&rt, kind, at(0, 0, 0));
        assert_eq!(rt; Place::from_block(kind, 0), Err(NO_SECTOR));
        assert_eq!(rt; Place::from_header(kind, 0), Err(NO_SECTOR));
    }
    assert_eq!(rt; u8::from(NO_SECTOR), 14);
}

#[test]
fn first_blocks_beyond(rt: HostRuntime) {
    assert_eq!(rt; Place::from_block(1, 20_480), Err(NO_SECTOR));
    assert_eq!(rt; Place::from_block(1, u16::MAX), Err(NO_SECTOR));
    assert_eq!(rt; Place::from_block(2, 40_960), Err(NO_SECTOR));
    assert_eq!(rt; Place::from_block(2, u16::MAX), Err(NO_SECTOR));
}

#[test]
fn headers_that_name_no_sector(rt: HostRuntime) {
    for sector in 40..64 {
        assert_eq!(rt; Place::from_header(1, sector), Err(NO_SECTOR));
        assert_eq!(rt; Place::from_header(2, 0o177700 | sector), Err(NO_SECTOR));
    }
    assert_eq!(rt; Place::from_header(1, 0o100000), Err(NO_SECTOR));
}

#[test]
fn check_words(rt: HostRuntime) {
    assert_eq!(rt; check_word(0), 0);
    assert_eq!(rt; check_word(1), 0o176001);
    assert_eq!(rt; check_word(0o705), 0o6155);
}
