// What a store mends.
ghost use Rattle.std.specs.Prelude.{◌≡◌};
ghost use Rattle.backup.specs.Mend.{mend_reply, after_mend};
ghost use Rattle.media.specs.Shelf.{takes_in};

use media::shelf::{SECTOR_WORDS, Shelf, ShelfRefusal};

/// Stores a sector's own words back onto it: its data is then no longer damaged, and all else of it is as it was.
pub fn mend_sector<S: Shelf>(shelf: &mut S, pack: u8, block: u16) -> Result<(), ShelfRefusal>
    ensures reply { result ≡ mend_reply (S.Shelf.packs shelf.old) pack block }
    ensures after { S.Shelf.packs shelf.new ≡ after_mend (S.Shelf.packs shelf.old) pack block (takes_in (S.Shelf.packs shelf.new)) }
{
    let mut words = [0; SECTOR_WORDS];
    shelf.fetch(pack, block, &mut words)?;
    shelf.store(pack, block, &words)
}
