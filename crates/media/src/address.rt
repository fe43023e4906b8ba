// Where a sector lies on a pack, and the numbers that name it.
ghost use Rattle.std.specs.Prelude.{◌≡◌, IfOk, Ok};
ghost use Rattle.media.specs.Address.{address_refusal_number, on_pack, or_no_sector, block_reply, header_reply, place_of_block, place_of_header, crc_step, crc_over, word_bits, check_of};
ghost use Rattle.media.specs.declared.address.AddressRefusal.TheVariants.{NoSector};

use crate::kinds::{HEADS, Kind, SECTORS, UnknownKind};
use std::error::Error;
use std::fmt;

/// What is XORed into a check word for a bit that differs.
const POLYNOMIAL: u16 = 0o120001;

/// Where a sector lies: its cylinder, its head and its place on the track, all numbered from 0.
#[derive(Clone, Copy, PartialEq, Eq, Debug)]
pub struct Place {
    pub cylinder: u16,
    pub head: u8,
    pub sector: u8,
}

/// Why an address is refused.
#[derive(Clone, Copy, PartialEq, Eq, Debug)]
pub enum AddressRefusal {
    NoSector = 14,
}

/// The number of the refusal.
impl From<AddressRefusal> for u8 {
    ghost from_gives = { λ refusal number. number ≡ address_refusal_number refusal };

    fn from(refusal: AddressRefusal) -> u8 {
        refusal as u8
    }
}

/// A pack of no kind has no sector.
impl From<UnknownKind> for AddressRefusal {
    ghost from_gives = { λ _ refusal. refusal ≡ NoSector };

    fn from(_: UnknownKind) -> AddressRefusal {
        AddressRefusal::NoSector
    }
}

// A kind is given by its number here, since a number that is no kind's is refused: the type Kind would ask more of callers.
impl Place {
    /// The block number, on a pack of the kind with this number.
    pub fn block(self, kind: u8) -> Result<u16, AddressRefusal>
        ensures reply { result ≡ block_reply kind self }
        ensures back { IfOk result (λ b. place_of_block kind b ≡ Ok self) }
    {
        self.check(Kind::try_from(kind)?)?;
        Ok((self.cylinder * HEADS + self.head as u16) * SECTORS + self.sector as u16)
    }

    /// The header word, on a pack of the kind with this number.
    pub fn header(self, kind: u8) -> Result<u16, AddressRefusal>
        ensures reply { result ≡ header_reply kind self }
        ensures back { IfOk result (λ w. place_of_header kind w ≡ Ok self) }
    {
        self.check(Kind::try_from(kind)?)?;
        Ok(self.cylinder << 7 | (self.head as u16) << 6 | self.sector as u16)
    }

    /// The place of a block, on a pack of the kind with this number.
    pub fn from_block(kind: u8, block: u16) -> Result<Place, AddressRefusal>
        ensures reply { result ≡ place_of_block kind block }
        ensures back { IfOk result (λ p. block_reply kind p ≡ Ok block) }
    {
        if block >= Kind::try_from(kind)?.blocks() {
            return Err(AddressRefusal::NoSector);
        }
        let track = block / SECTORS;
        Ok(Place {
            cylinder: track / HEADS,
            head: (track % HEADS) as u8,
            sector: (block % SECTORS) as u8,
        })
    }

    /// The place that a header word names, on a pack of the kind with this number.
    pub fn from_header(kind: u8, header: u16) -> Result<Place, AddressRefusal>
        ensures reply { result ≡ place_of_header kind header }
        ensures back { IfOk result (λ p. header_reply kind p ≡ Ok header) }
    {
        let place = Place {
            cylinder: header >> 7,
            head: (header >> 6 & 1) as u8,
            sector: (header & 0o77) as u8,
        };
        place.check(Kind::try_from(kind)?)?;
        Ok(place)
    }

    // Refuses a place that a pack of this kind lacks.
    fn check(self, kind: Kind) -> Result<(), AddressRefusal>
        ensures { result ≡ or_no_sector (on_pack kind self) tt }
    {
        if self.cylinder < kind.cylinders()
            && (self.head as u16) < HEADS
            && (self.sector as u16) < SECTORS
        {
            Ok(())
        } else {
            Err(AddressRefusal::NoSector)
        }
    }
}

impl fmt::Display for Place {
    ghost use Rattle.std.specs.Prelude.{Some};
    ghost use Rattle.media.specs.Texts.{place_text};

    ghost output = { λ x. Some (place_text x) };

    fn fmt<W: fmt::Write>(&self, f: &mut fmt::Formatter<W>) -> fmt::Result {
        let Place {
            cylinder,
            head,
            sector,
        } = *self;
        write!(f, "cylinder {cylinder}, head {head}, sector {sector}")
    }
}

impl fmt::Display for AddressRefusal {
    ghost use Rattle.std.specs.Prelude.{Some};
    ghost use Rattle.media.specs.Texts.{address_refusal_text};

    ghost output = { λ x. Some (address_refusal_text x) };

    fn fmt<W: fmt::Write>(&self, f: &mut fmt::Formatter<W>) -> fmt::Result {
        let number = u8::from(*self);
        write!(f, "refused {number}: there is no such sector")
    }
}

impl Error for AddressRefusal {}

/// The check word of a header word: a CRC over its bits and those of a zero word, bit 0 first.
pub fn check_word(header: u16) -> u16
    ensures { result ≡ check_of header }
{
    run_word(run_word(0, header), 0)
}

/// The CRC after a word, bit 0 first.
fn run_word(mut crc: u16, mut word: u16) -> u16
    ensures { result ≡ crc_over crc (word_bits word) }
{
    // Bit after bit, by shifts and masks, a rule of the project; with `fold` over the places the proof did not close.
    for _turn in 0..u16::BITS {
        crc = run_bit(crc, word & 1);
        word >>= 1;
    }
    crc
}

/// The CRC after one bit.
fn run_bit(crc: u16, bit: u16) -> u16
    ensures { result ≡ crc_step crc bit }
{
    if crc & 1 == bit {
        crc >> 1
    } else {
        crc >> 1 ^ POLYNOMIAL
    }
}
