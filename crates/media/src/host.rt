// The address rules on plain numbers, as C calls them by way of the crate `media_c`: a refusal is 65,536 plus its number, which no result is.
// C has no Kind and no Result: a kind, a place and a refusal are numbers here.
ghost use Rattle.std.specs.Prelude.{◌≡◌, ◌<◌, ◌&&◌, IfOk, nat_lt};
ghost use Rattle.media.specs.Address.{or_no_sector, place_given, block_reply, header_reply};
ghost use Rattle.media.specs.Host.{host_number, check_reply, host_block, host_header, host_check};
ghost use Rattle.media.specs.declared.address.AddressRefusal.TheVariants.{NoSector};

use crate::address::{AddressRefusal, Place, check_word};
use std::num::TryFromIntError;

/// What a refusal's number is added to: no result is as large.
const REFUSAL_BASE: u32 = 65_536;

/// The block number of a place on a pack of this kind, or 65,536 plus the number of the refusal.
pub fn media_block_number(kind: u32, cylinder: u32, head: u32, sector: u32) -> u32
    ensures answer { result ≡ host_block kind cylinder head sector }
    ensures apart { IfOk (block_reply kind (place_given cylinder head sector)) (λ b. b < 65536) }
{
    told(narrowed(kind, cylinder, head, sector).and_then(|(kind, place)| place.block(kind)))
}

/// The header word of a place on a pack of this kind, or 65,536 plus the number of the refusal.
pub fn media_header_word(kind: u32, cylinder: u32, head: u32, sector: u32) -> u32
    ensures answer { result ≡ host_header kind cylinder head sector }
    ensures apart { IfOk (header_reply kind (place_given cylinder head sector)) (λ w. w < 65536) }
{
    told(narrowed(kind, cylinder, head, sector).and_then(|(kind, place)| place.header(kind)))
}

/// The check word of a header word, or 65,536 plus the number of the refusal.
pub fn media_check_word(header: u32) -> u32
    ensures answer { result ≡ host_check header }
    ensures apart { IfOk (check_reply header) (λ w. w < 65536) }
{
    told(
        u16::try_from(header)
            .map(check_word)
            .map_err(AddressRefusal::from),
    )
}

/// A result as it is, a refusal as 65,536 plus its number.
fn told(reply: Result<u16, AddressRefusal>) -> u32
    ensures { result ≡ host_number reply }
{
    match reply {
        Ok(result) => u32::from(result),
        Err(refusal) => REFUSAL_BASE + u32::from(u8::from(refusal)),
    }
}

/// The kind's number and the place; a number that is too large for its type is too large for any pack.
fn narrowed(kind: u32, cylinder: u32, head: u32, sector: u32) -> Result<(u8, Place), AddressRefusal>
    ensures { result ≡ or_no_sector (nat_lt kind 256 && (nat_lt cylinder 65536 && (nat_lt head 256 && nat_lt sector 256))) (kind, place_given cylinder head sector) }
{
    Ok((
        u8::try_from(kind)?,
        Place {
            cylinder: u16::try_from(cylinder)?,
            head: u8::try_from(head)?,
            sector: u8::try_from(sector)?,
        },
    ))
}

/// No pack has a number that is too large for its type.
impl From<TryFromIntError> for AddressRefusal {
    ghost from_gives = { λ _ refusal. refusal ≡ NoSector };

    fn from(_: TryFromIntError) -> AddressRefusal {
        AddressRefusal::NoSector
    }
}
