// A copy of one pack onto another.
ghost use Rattle.std.specs.Prelude.{◌≡◌, MatchResult};
ghost use Rattle.backup.specs.Copy.{copy_reply, after_copy};
ghost use Rattle.backup.specs.Whole.{kinds_reply, Whole, Stopped};
ghost use Rattle.backup.specs.declared.copy.CopyError.TheVariants.{Declined, NoMemory};
ghost use Rattle.media.specs.Shelf.{takes_in};

use media::kinds::Kind;
use media::marks::Mark;
use media::shelf::{SECTOR_WORDS, Shelf, ShelfRefusal};
use std::alloc::{AllocFailed, Global};
use std::error::Error;
use std::fmt;

/// What became of a sector.
// A type of its own: as an Option, None would have to say that the words were stored.
#[derive(Clone, Copy, PartialEq, Eq, Debug)]
pub enum Outcome {
    /// Its words were stored.
    Copied,
    /// Something is wrong with it, and it was left out.
    Skipped(Mark),
}

/// A sector that a copy left out, and what is wrong with it.
#[derive(Clone, Copy, PartialEq, Eq, Debug)]
pub struct LeftOut {
    pub block: u16,
    pub mark: Mark,
}

/// Why a pack is not copied to its end.
#[derive(Clone, Copy, PartialEq, Eq, Debug)]
pub enum CopyError {
    /// A shelf declined a call.
    Declined(ShelfRefusal),
    /// The two packs are not of one kind.
    KindsDiffer,
    /// There is no memory for the list of what was left out.
    NoMemory,
}

impl From<ShelfRefusal> for CopyError {
    ghost from_gives = { λ refusal r. r ≡ Declined refusal };

    fn from(refusal: ShelfRefusal) -> CopyError {
        CopyError::Declined(refusal)
    }
}

impl<T: Drop> From<AllocFailed<T>> for CopyError {
    ghost from_gives = { λ _ r. r ≡ NoMemory };

    fn from(refused: AllocFailed<T>) -> CopyError {
        drop(refused);
        CopyError::NoMemory
    }
}

/// Copies a sector that nothing is wrong with to the same block of another pack.
// A shelf and a pack's number, as every call on a shelf has them: in one value they would be two types, one shared and one lent to be changed.
pub fn copy_sector<F: Shelf, T: Shelf>(
    from: &F,
    from_pack: u8,
    to: &mut T,
    to_pack: u8,
    block: u16,
) -> Result<Outcome, ShelfRefusal>
    ensures reply { result ≡ copy_reply (F.Shelf.packs from.now) from_pack (T.Shelf.packs to.old) to_pack block }
    ensures after { T.Shelf.packs to.new ≡ after_copy (F.Shelf.packs from.now) from_pack (T.Shelf.packs to.old) to_pack block (takes_in (T.Shelf.packs to.new)) }
{
    let mut words = [0; SECTOR_WORDS];
    let mark = from.fetch(from_pack, block, &mut words)?;
    if !mark.is_clean() {
        return Ok(Outcome::Skipped(mark));
    }
    to.store(to_pack, block, &words)?;
    Ok(Outcome::Copied)
}

/// Copies every sector of a pack that nothing is wrong with to a pack of the same kind, and answers the sectors that it left out.
/// Where it stops early, the blocks before have been copied.
pub fn copy_pack<F: Shelf, T: Shelf>(
    heap: Global,
    from: &F,
    from_pack: u8,
    to: &mut T,
    to_pack: u8,
) -> Result<Vec<LeftOut>, CopyError>
    ensures { MatchResult result
        (λ left. Whole (F.Shelf.packs from.now) from_pack (T.Shelf.packs to.old) to_pack (T.Shelf.packs to.new) left.items)
        (λ why. Stopped (F.Shelf.packs from.now) from_pack (T.Shelf.packs to.old) to_pack (T.Shelf.packs to.new) why) }
{
    let kind = same_kind(from, from_pack, to, to_pack)?;
    let mut left_out = Vec::new(heap);
    for block in 0..kind.blocks() {
        if let Outcome::Skipped(mark) = copy_sector(from, from_pack, to, to_pack, block)? {
            left_out.push(LeftOut { block, mark })?;
        }
    }
    Ok(left_out)
}

// The one kind of both packs.
fn same_kind<F: Shelf, T: Shelf>(
    from: &F,
    from_pack: u8,
    to: &T,
    to_pack: u8,
) -> Result<Kind, CopyError>
    ensures { result ≡ kinds_reply (F.Shelf.packs from.now) from_pack (T.Shelf.packs to.now) to_pack }
{
    let kind = from.kind(from_pack)?;
    if to.kind(to_pack)? == kind {
        Ok(kind)
    } else {
        Err(CopyError::KindsDiffer)
    }
}

impl fmt::Display for CopyError {
    fn fmt<W: fmt::Write>(&self, f: &mut fmt::Formatter<W>) -> fmt::Result {
        match self {
            CopyError::Declined(refusal) => write!(f, "{refusal}"),
            CopyError::KindsDiffer => f.write_str("the two packs are not of one kind"),
            CopyError::NoMemory => f.write_str(
                "there is no memory for the list of skipped sectors",
            ),
        }
    }
}

impl Error for CopyError {}
