// A shelf of one pack in a slice of words.
ghost use Rattle.std.specs.Prelude.{◌≡◌, ◌*◌, Ok};
ghost use Rattle.std.specs.List.{slice_get};
ghost use Rattle.std.specs.Option.{option_to_list};
ghost use Rattle.std.specs.Result.{result_and};
ghost use Rattle.shelves.specs.Laws.{flat_lawful};
ghost use Rattle.shelves.specs.Flat.{flat_packs, flat_meaning, flat_after};
ghost use Rattle.media.specs.Shelf.{sector_check, store_reply, after_store, takes_in};

use media::kinds::Kind;
use media::marks::Mark;
use media::shelf::{SECTOR_WORDS, Shelf, ShelfRefusal, check_sector};

/// A shelf of one pack, whose words stand in a lent slice in the order of the blocks. Nothing is wrong with its sectors, and all of them take.
/// Where the kind is none or the slice has not just a pack's words, the shelf has no packs.
#[derive(Drop)]
pub struct FlatShelf<'a> {
    kind: Option<Kind>,
    words: &'a mut [u16],
}

impl<'a> FlatShelf<'a> {
    /// A shelf over these words.
    // The kind as a number, since with one that is no kind's the shelf has no packs.
    pub fn new(kind: u8, words: &'a mut [u16]) -> FlatShelf<'a>
        ensures meaning { flat_meaning result ≡ flat_packs kind words.old }
        ensures lent { result.words ≡ words.entry }
    {
        FlatShelf {
            kind: Kind::try_from(kind).ok(),
            words,
        }
    }

    // The kind of the one pack, where the slice has just its words.
    fn whole(&self) -> Option<Kind>
        ensures { option_to_list result ≡ (flat_meaning self.now).kinds }
    {
        self.kind.filter(|kind| self.words.len() == usize::from(kind.blocks()) * SECTOR_WORDS)
    }

    // The kind of a pack, if there is such a pack.
    fn kind_at(&self, pack: u8) -> Option<Kind>
        ensures { result ≡ slice_get (flat_meaning self.now).kinds pack }
    {
        self.whole().filter(|_| pack == 0)
    }

    // Where a sector's words begin, unless the buffer or the sector is refused.
    fn start(&self, pack: u8, block: u16, buffer: &[u16]) -> Result<usize, ShelfRefusal>
        ensures { result ≡ result_and (sector_check (slice_get (flat_meaning self.now).kinds pack) block buffer.now) (Ok (block * 128)) }
    {
        check_sector(self.kind_at(pack), block, buffer)?;
        Ok(usize::from(block) * SECTOR_WORDS)
    }
}

impl Shelf for FlatShelf<'_> {
    ghost packs = { flat_meaning };

    ghost lawful = { λ s. flat_lawful s.kind s.words.now };

    fn count(&self) -> u8 {
        u8::from(self.whole().is_some())
    }

    fn kind(&self, pack: u8) -> Result<Kind, ShelfRefusal> {
        self.kind_at(pack).ok_or(ShelfRefusal::NoPack)
    }

    fn fetch(&self, pack: u8, block: u16, buffer: &mut [u16]) -> Result<Mark, ShelfRefusal> {
        let from = self.start(pack, block, buffer)?;
        buffer.copy_from_slice(&self.words[from..from + SECTOR_WORDS]);
        Ok(Mark::CLEAN)
    }

    fn store(&mut self, pack: u8, block: u16, buffer: &[u16]) -> Result<(), ShelfRefusal>
        ensures reply { result ≡ store_reply (flat_meaning self.old) pack block buffer.now }
        ensures after { flat_meaning self.new ≡ after_store (flat_meaning self.old) pack block buffer.now (takes_in (flat_meaning self.new)) }
        ensures lender { self.new.words.ghost_name ≡ self.old.words.ghost_name }
        ensures slice { self.new.words.now ≡ flat_after self.old.kind self.old.words.now pack block buffer.now }
    {
        let to = self.start(pack, block, buffer)?;
        self.words[to..to + SECTOR_WORDS].copy_from_slice(buffer);
        Ok(())
    }
}
