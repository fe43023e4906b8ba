// A drive: what a press or a tick does to it, how a seek starts, and its status word.
ghost use Rattle.std.specs.Prelude.{◌≡◌};
ghost use Rattle.rl11.specs.Drive.{state_number, is_there, holds, is_empty, is_locked, runs, has_error, fresh_drive, after_event, last_cylinder, after_seek, cleared, is_rl02, heads_out, is_brushing, status_word};

use crate::orders::{Head, SeekOrder};
use media::kinds::Kind;

/// How many ticks a seek takes that crosses no cylinder.
const SEEK_TICKS: u16 = 24;

/// What a drive is doing.
#[derive(Clone, Copy, PartialEq, Eq, Debug)]
pub enum DriveState {
    Empty,
    SpinUp,
    Brush,
    LoadHeads,
    /// The heads move, and rest after so many ticks more.
    Seek(u16),
    LockOn,
    UnloadHeads,
    SpinDown,
}

/// What happens to a drive: a press on its panel, or a tick.
#[derive(Clone, Copy, PartialEq, Eq, Debug)]
pub enum Event {
    Load(u8),
    Unload,
    Protect,
    Tick,
}

/// The errors of a drive, which stand until they are cleared.
#[derive(Clone, Copy, PartialEq, Eq, Debug)]
pub struct DriveErrors {
    pub volume_check: bool,
    pub write_gate: bool,
    pub write_data: bool,
}

/// A unit: a drive, or the place of one that is missing.
#[derive(Clone, Copy, PartialEq, Eq, Debug)]
pub struct Drive {
    /// The kind of the drive; none where it is missing.
    pub(crate) kind: Option<Kind>,
    pub(crate) state: DriveState,
    /// The number of the pack in it, on the shelf.
    pub(crate) pack: Option<u8>,
    pub(crate) cylinder: u16,
    pub(crate) head: Head,
    pub(crate) protected: bool,
    pub(crate) errors: DriveErrors,
}

impl DriveState {
    /// The state's number, from 0 to 7.
    // A named method, since the number leaves out the ticks of a seek.
    pub(crate) fn number(self) -> u16
        ensures { result ≡ state_number self }
    {
        match self {
            DriveState::Empty => 0,
            DriveState::SpinUp => 1,
            DriveState::Brush => 2,
            DriveState::LoadHeads => 3,
            DriveState::Seek(_) => 4,
            DriveState::LockOn => 5,
            DriveState::UnloadHeads => 6,
            DriveState::SpinDown => 7,
        }
    }
}

impl DriveErrors {
    /// No error.
    pub(crate) const NONE: DriveErrors = DriveErrors {
        volume_check: false,
        write_gate: false,
        write_data: false,
    };
}

impl Drive {
    /// An empty drive of a kind, or the place of a missing one.
    pub(crate) fn new(kind: Option<Kind>) -> Drive
        ensures { result ≡ fresh_drive kind }
    {
        Drive {
            kind,
            state: DriveState::Empty,
            pack: None,
            cylinder: 0,
            head: Head::Upper,
            protected: false,
            errors: DriveErrors::NONE,
        }
    }

    /// A press or a tick.
    // One `match` on the state together with the event, a rule of the project for the drive.
    pub(crate) fn act(&mut self, event: Event)
        ensures { self.new ≡ after_event event self.old }
    {
        match (self.state, event) {
            (DriveState::Empty, Event::Load(pack)) => {
                self.pack = Some(pack);
                self.state = DriveState::SpinUp;
            }
            (
                DriveState::SpinUp
                | DriveState::Brush
                | DriveState::LoadHeads
                | DriveState::Seek(_)
                | DriveState::LockOn,
                Event::Unload,
            ) => self.state = DriveState::UnloadHeads,
            (_, Event::Protect) => self.protected = !self.protected,
            (DriveState::SpinUp, Event::Tick) => self.state = DriveState::Brush,
            (DriveState::Brush, Event::Tick) => {
                self.state = DriveState::LoadHeads;
                self.cylinder = 0;
                self.head = Head::Upper;
                self.errors.volume_check = true;
            }
            (DriveState::LoadHeads, Event::Tick) => self.state = DriveState::LockOn,
            (DriveState::Seek(ticks), Event::Tick) => {
                self.state = if ticks > 1 {
                    DriveState::Seek(ticks - 1)
                } else {
                    DriveState::LockOn
                };
            }
            (DriveState::UnloadHeads, Event::Tick) => self.state = DriveState::SpinDown,
            (DriveState::SpinDown, Event::Tick) => {
                self.state = DriveState::Empty;
                self.pack = None;
            }
            _ => {}
        }
    }

    /// Whether there is a drive at all.
    pub(crate) fn exists(&self) -> bool
        ensures { result ≡ is_there self.now }
    {
        self.kind.is_some()
    }

    /// Whether this pack is in the drive.
    pub(crate) fn holds(&self, pack: u8) -> bool
        ensures { result ≡ holds pack self.now }
    {
        self.pack == Some(pack)
    }

    /// Whether no pack is in the drive.
    pub(crate) fn is_empty(&self) -> bool
        ensures { result ≡ is_empty self.now.state }
    {
        self.state == DriveState::Empty
    }

    /// Whether the heads rest on a cylinder, so that sectors can pass.
    pub(crate) fn is_locked(&self) -> bool
        ensures { result ≡ is_locked self.now.state }
    {
        self.state == DriveState::LockOn
    }

    /// Whether an unload press would stop the drive.
    pub(crate) fn runs(&self) -> bool
        ensures { result ≡ runs self.now.state }
    {
        !matches!(
            self.state,
            DriveState::Empty | DriveState::UnloadHeads | DriveState::SpinDown
        )
    }

    /// Whether any error stands.
    pub(crate) fn has_error(&self) -> bool
        ensures { result ≡ has_error self.now }
    {
        self.errors != DriveErrors::NONE
    }

    /// Clears the errors.
    pub(crate) fn clear_errors(&mut self)
        ensures { self.new ≡ cleared self.old }
    {
        self.errors = DriveErrors::NONE;
    }

    /// Starts a seek: the heads stop at cylinder 0 or the last, and rest after 24 ticks and one for every four cylinders crossed.
    pub(crate) fn seek(&mut self, order: SeekOrder)
        ensures { self.new ≡ after_seek order self.old }
    {
        let target = if order.inward {
            self.cylinder
                .saturating_add(order.difference)
                .min(self.last_cylinder())
        } else {
            self.cylinder.saturating_sub(order.difference)
        };
        let crossed = self.cylinder.abs_diff(target);
        self.cylinder = target;
        self.head = order.head;
        self.state = DriveState::Seek(SEEK_TICKS + crossed / 4);
    }

    // The innermost cylinder.
    fn last_cylinder(&self) -> u16
        ensures { result ≡ last_cylinder self.now.kind }
    {
        self.kind.map_or(0, |kind| kind.cylinders() - 1)
    }

    // Whether it is a drive for RL02 packs.
    fn is_rl02(&self) -> bool
        ensures { result ≡ is_rl02 self.now.kind }
    {
        self.kind == Some(Kind::Rl02)
    }

    // Whether the heads are over the pack.
    fn heads_out(&self) -> bool
        ensures { result ≡ heads_out self.now.state }
    {
        matches!(self.state, DriveState::Seek(_) | DriveState::LockOn)
    }

    // Whether the brushes are over the pack.
    fn is_brushing(&self) -> bool
        ensures { result ≡ is_brushing self.now.state }
    {
        self.state == DriveState::Brush
    }

    /// The status word.
    // By shifts and `|`, a rule of the project for words of fields.
    pub(crate) fn status_word(&self) -> u16
        ensures { result ≡ status_word self.now }
    {
        (self.errors.write_data as u16) << 15
            | (self.protected as u16) << 13
            | (self.errors.write_gate as u16) << 10
            | (self.errors.volume_check as u16) << 9
            | (self.is_rl02() as u16) << 7
            | u16::from(self.head) << 6
            | (self.heads_out() as u16) << 4
            | (!self.is_brushing() as u16) << 3
            | self.state.number()
    }
}
