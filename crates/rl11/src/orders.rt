// What the disk address register orders: a seek, or a report of a drive's status.
ghost use Rattle.std.specs.Prelude.{◌≡◌};
ghost use Rattle.rl11.specs.Orders.{head_for, head_number, is_seek, seek_order, status_order};

use crate::words::{has_bit, low_byte};

/// A head of a drive.
#[derive(Clone, Copy, PartialEq, Eq, Debug)]
pub enum Head {
    Upper = 0,
    Lower = 1,
}

/// A seek, as the disk address register orders it.
#[derive(Clone, Copy, PartialEq, Eq, Debug)]
pub struct SeekOrder {
    /// Towards higher cylinders.
    pub inward: bool,
    pub head: Head,
    /// How many cylinders to cross.
    pub difference: u16,
}

/// A report of a drive's status, as the disk address register orders it.
#[derive(Clone, Copy, PartialEq, Eq, Debug)]
pub enum StatusOrder {
    /// Tell the status.
    Tell,
    /// Clear the drive's errors, then tell the status.
    ClearAndTell,
}

/// 0 for the upper head, 1 for the lower one.
impl From<Head> for u16 {
    ghost from_gives = { λ head number. number ≡ head_number head };

    fn from(head: Head) -> u16 {
        head as u16
    }
}

impl Head {
    /// The lower head or the upper one.
    // A named method, which says what the flag means; `Head::from(true)` would not.
    pub(crate) fn lower_if(lower: bool) -> Head
        ensures { result ≡ head_for lower }
    {
        if lower { Head::Lower } else { Head::Upper }
    }
}

impl SeekOrder {
    /// The seek in a disk address; none unless its bit 0 is set and its bits 1, 3, 5 and 6 are clear.
    // A named method, which says what the word is, and answers an option: a word that orders no seek is no error.
    pub(crate) fn from_disk_address(word: u16) -> Option<SeekOrder>
        ensures { result ≡ seek_order word }
    {
        is_seek(word).then(|| SeekOrder {
            inward: has_bit(word, 2),
            head: Head::lower_if(has_bit(word, 4)),
            difference: word >> 7,
        })
    }
}

// Whether a disk address has the marks of a seek.
fn is_seek(word: u16) -> bool
    ensures { result ≡ is_seek word }
{
    has_bit(word, 0)
        && !has_bit(word, 1)
        && !has_bit(word, 3)
        && !has_bit(word, 5)
        && !has_bit(word, 6)
}

impl StatusOrder {
    /// The order in the low byte of a disk address: 3 or 0o13, else none.
    // A named method that answers an option, as that of a seek.
    pub(crate) fn from_disk_address(word: u16) -> Option<StatusOrder>
        ensures { result ≡ status_order word }
    {
        match low_byte(word) {
            0o3 => Some(StatusOrder::Tell),
            0o13 => Some(StatusOrder::ClearAndTell),
            _ => None,
        }
    }
}
