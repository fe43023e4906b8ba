// A shelf of one pack that repeats one sector. Anybody outside the library writes a shelf of their own like this: a meaning (specs/Stamp.antt), its law, and the four calls of a shelf.
ghost use Rattle.std.specs.Prelude.{◌≡◌, [], ◌∷◌};
ghost use Rattle.std.specs.List.{slice_get};
ghost use Rattle.std.proofs.Common.{lit≤};
ghost use Rattle.makes.specs.Stamp.{stamp_packs};
ghost use Rattle.media.specs.Laws.{shelf_lawful};

use media::kinds::Kind;
use media::marks::Mark;
use media::shelf::{SECTOR_WORDS, Shelf, ShelfRefusal, check_sector};

/// A shelf of one pack whose sectors all have the same words and the same mark, and of which none takes.
#[derive(Drop)]
pub struct Stamp {
    kind: Kind,
    words: [u16; SECTOR_WORDS],
    mark: Mark,
}

impl Stamp {
    /// The shelf of a pack of this kind that repeats these words and this mark.
    pub fn new(kind: Kind, words: [u16; SECTOR_WORDS], mark: Mark) -> Stamp
        ensures { stamp_packs result.kind result.words result.mark ≡ stamp_packs kind words mark }
    {
        Stamp { kind, words, mark }
    }

    // The kind of a pack, if there is such a pack.
    fn kind_at(&self, pack: u8) -> Option<Kind>
        ensures { result ≡ slice_get (self.now.kind ∷ []) pack }
    {
        (pack == 0).then_some(self.kind)
    }
}

impl Shelf for Stamp {
    ghost packs = { λ s. stamp_packs s.kind s.words s.mark };

    ghost lawful = { λ s. shelf_lawful _ _ (lit≤ tt) };

    fn count(&self) -> u8 {
        1
    }

    fn kind(&self, pack: u8) -> Result<Kind, ShelfRefusal> {
        self.kind_at(pack).ok_or(ShelfRefusal::NoPack)
    }

    fn fetch(&self, pack: u8, block: u16, buffer: &mut [u16]) -> Result<Mark, ShelfRefusal> {
        check_sector(self.kind_at(pack), block, buffer)?;
        buffer.copy_from_slice(&self.words);
        Ok(self.mark)
    }

    fn store(&mut self, pack: u8, block: u16, buffer: &[u16]) -> Result<(), ShelfRefusal> {
        check_sector(self.kind_at(pack), block, buffer).and(Err(ShelfRefusal::NotTaking))
    }
}
