// The interface of a shelf of packs.
ghost use Rattle.std.specs.Prelude.{◌≡◌, length};
ghost use Rattle.media.specs.Shelf.{Packs, Lawful, shelf_refusal_number, sector_check, kind_reply, fetch_reply, fetch_buffer, store_reply, after_store, takes_in};

use crate::kinds::Kind;
use crate::marks::Mark;
use std::error::Error;
use std::fmt;

/// How many words a sector has.
pub const SECTOR_WORDS: usize = 128;

/// Why a shelf declines a call.
#[derive(Clone, Copy, PartialEq, Eq, Debug)]
pub enum ShelfRefusal {
    /// The shelf has no such pack.
    NoPack = 9,
    /// The buffer has not 128 words.
    BufferLength = 13,
    /// The shelf has no such sector.
    NoSector = 14,
    /// The sector takes no store.
    NotTaking = 15,
}

/// The refusal's number.
impl From<ShelfRefusal> for u8 {
    ghost from_gives = { λ refusal number. number ≡ shelf_refusal_number refusal };

    fn from(refusal: ShelfRefusal) -> u8 {
        refusal as u8
    }
}

/// Refuses a buffer that has not 128 words, then a block that a pack of this kind, or a pack that is missing, has not.
pub fn check_sector(kind: Option<Kind>, block: u16, buffer: &[u16]) -> Result<(), ShelfRefusal>
    ensures { result ≡ sector_check kind block buffer.now }
{
    if buffer.len() != SECTOR_WORDS {
        Err(ShelfRefusal::BufferLength)
    } else if kind.is_some_and(|kind| block < kind.blocks()) {
        Ok(())
    } else {
        Err(ShelfRefusal::NoSector)
    }
}

/// Up to 8 packs, numbered from 0, each of a kind; and for each sector of a pack its words, its mark and whether it takes a store.
// A pack and a block stand side by side in each call, a rule of the project for the interface.
pub trait Shelf {
    /// All that a shelf means.
    ghost packs: { Self → Packs };

    /// There are at most 8 packs, and a sector is there exactly where its pack's kind has it.
    ghost lawful: { (s : Self) → Lawful (packs s) };

    /// How many packs there are.
    fn count(&self) -> u8
        ensures { result ≡ length (packs self.now).kinds };

    /// The kind of a pack.
    fn kind(&self, pack: u8) -> Result<Kind, ShelfRefusal>
        ensures { result ≡ kind_reply (packs self.now) pack };

    /// Copies the words of a sector into the buffer and answers the sector's mark.
    fn fetch(&self, pack: u8, block: u16, buffer: &mut [u16]) -> Result<Mark, ShelfRefusal>
        ensures reply { result ≡ fetch_reply (packs self.now) pack block buffer.old }
        ensures filled { buffer.new ≡ fetch_buffer (packs self.now) pack block buffer.old };

    /// Sets the words of a sector that takes, mends its data and leaves it taking.
    fn store(&mut self, pack: u8, block: u16, buffer: &[u16]) -> Result<(), ShelfRefusal>
        ensures reply { result ≡ store_reply (packs self.old) pack block buffer.now }
        ensures after { packs self.new ≡ after_store (packs self.old) pack block buffer.now (takes_in (packs self.new)) };
}

impl fmt::Display for ShelfRefusal {
    fn fmt<W: fmt::Write>(&self, f: &mut fmt::Formatter<W>) -> fmt::Result {
        let number = u8::from(*self);
        let what = match self {
            ShelfRefusal::NoPack => "there is no such pack",
            ShelfRefusal::BufferLength => "the buffer has not 128 words",
            ShelfRefusal::NoSector => "there is no such sector",
            ShelfRefusal::NotTaking => "the sector takes no store",
        };
        write!(f, "refused {number}: {what}")
    }
}

impl Error for ShelfRefusal {}
