// Whether two packs are the same.
ghost use Rattle.std.specs.Prelude.{◌≡◌, ◌↔◌, true, IsTrue, IfOk, Ok};
ghost use Rattle.media.specs.Same.{SamePacks, words_at, words_agree, same_reply};
ghost use Rattle.media.specs.Shelf.{has_block};

use crate::shelf::{SECTOR_WORDS, Shelf, ShelfRefusal};

/// Whether a pack of one shelf and a pack of another have the same kind and all words the same.
// A shelf and a pack's number, as every call on a shelf has them.
pub fn same<L: Shelf, R: Shelf>(
    left: &L,
    left_pack: u8,
    right: &R,
    right_pack: u8,
) -> Result<bool, ShelfRefusal>
    ensures reply { result ≡ same_reply (L.Shelf.packs left.now) left_pack (R.Shelf.packs right.now) right_pack }
    ensures exact { IfOk result (λ answer. IsTrue answer ↔ SamePacks (L.Shelf.packs left.now) left_pack (R.Shelf.packs right.now) right_pack) }
{
    let kind = left.kind(left_pack)?;
    if right.kind(right_pack)? != kind {
        return Ok(false);
    }
    // A `for` with `?`, and not `all`, whose closure answers a bool.
    for block in 0..kind.blocks() {
        if !same_sector(left, left_pack, right, right_pack, block)? {
            return Ok(false);
        }
    }
    Ok(true)
}

// Whether two sectors that are there have the same words.
fn same_sector<L: Shelf, R: Shelf>(
    left: &L,
    left_pack: u8,
    right: &R,
    right_pack: u8,
    block: u16,
) -> Result<bool, ShelfRefusal>
    requires left_there { has_block (L.Shelf.packs left.now).kinds left_pack block ≡ true }
    requires right_there { has_block (R.Shelf.packs right.now).kinds right_pack block ≡ true }
    ensures { result ≡ Ok (words_agree (words_at (L.Shelf.packs left.now) left_pack block) (words_at (R.Shelf.packs right.now) right_pack block)) }
{
    let mut ours = [0; SECTOR_WORDS];
    let mut theirs = [0; SECTOR_WORDS];
    left.fetch(left_pack, block, &mut ours)?;
    right.fetch(right_pack, block, &mut theirs)?;
    Ok(ours[..] == theirs[..])
}
