// Why a controller declines a call, each reason with its number.
ghost use Rattle.std.specs.Prelude.{◌≡◌};
ghost use Rattle.exchanges.specs.Refusals.{make_refusal_number, bus_refusal_number, grant_refusal_number, panel_refusal_number, refusal_number};
ghost use Rattle.exchanges.specs.declared.refusals.Refusal.TheVariants.{Bus, Grant, Panel};

/// Why a controller is not made.
#[derive(Clone, Copy, PartialEq, Eq, Debug)]
pub enum MakeRefusal {
    /// A unit's kind is above 2.
    NoSuchKind = 1,
}

/// Why a bus read or write is refused.
#[derive(Clone, Copy, PartialEq, Eq, Debug)]
pub enum BusRefusal {
    /// The address has more than 18 bits.
    BeyondBus = 2,
    /// The address is odd.
    OddAddress = 3,
    /// Neither a register nor a memory word is there.
    NothingThere = 4,
    /// A register is written while a function works.
    Working = 5,
}

/// Why no vector is granted.
#[derive(Clone, Copy, PartialEq, Eq, Debug)]
pub enum GrantRefusal {
    /// No interrupt is waiting.
    NothingWaiting = 6,
}

/// Why a press on a panel is refused.
#[derive(Clone, Copy, PartialEq, Eq, Debug)]
pub enum PanelRefusal {
    /// There is no such drive.
    NoDrive = 7,
    /// The drive is not empty.
    NotEmpty = 8,
    /// The shelf has no such pack.
    NoPack = 9,
    /// The pack is of another kind than the drive.
    OtherKind = 10,
    /// The pack is in another drive.
    InAnotherDrive = 11,
    /// The drive is empty, or is stopping already.
    NotRunning = 12,
}

/// Why any call on a controller is refused.
#[derive(Clone, Copy, PartialEq, Eq, Debug)]
pub enum Refusal {
    Bus(BusRefusal),
    Grant(GrantRefusal),
    Panel(PanelRefusal),
}

/// The refusal's number: 1.
impl From<MakeRefusal> for u8 {
    ghost from_gives = { λ refusal number. number ≡ make_refusal_number refusal };

    fn from(refusal: MakeRefusal) -> u8 {
        refusal as u8 // 1
    }
}

/// The refusal's number: from 2 to 5.
impl From<BusRefusal> for u8 {
    ghost from_gives = { λ refusal number. number ≡ bus_refusal_number refusal };

    fn from(refusal: BusRefusal) -> u8 {
        refusal as u8 // from 2 to 5
    }
}

/// The refusal's number: 6.
impl From<GrantRefusal> for u8 {
    ghost from_gives = { λ refusal number. number ≡ grant_refusal_number refusal };

    fn from(refusal: GrantRefusal) -> u8 {
        refusal as u8 // 6
    }
}

/// The refusal's number: from 7 to 12.
impl From<PanelRefusal> for u8 {
    ghost from_gives = { λ refusal number. number ≡ panel_refusal_number refusal };

    fn from(refusal: PanelRefusal) -> u8 {
        refusal as u8 // from 7 to 12
    }
}

/// The refusal's number.
impl From<Refusal> for u8 {
    ghost from_gives = { λ refusal number. number ≡ refusal_number refusal };

    fn from(refusal: Refusal) -> u8 {
        match refusal {
            Refusal::Bus(refusal) => u8::from(refusal),
            Refusal::Grant(refusal) => u8::from(refusal),
            Refusal::Panel(refusal) => u8::from(refusal),
        }
    }
}

impl From<BusRefusal> for Refusal {
    ghost from_gives = { λ refusal r. r ≡ Bus refusal };

    fn from(refusal: BusRefusal) -> Refusal {
        Refusal::Bus(refusal)
    }
}

impl From<GrantRefusal> for Refusal {
    ghost from_gives = { λ refusal r. r ≡ Grant refusal };

    fn from(refusal: GrantRefusal) -> Refusal {
        Refusal::Grant(refusal)
    }
}

impl From<PanelRefusal> for Refusal {
    ghost from_gives = { λ refusal r. r ≡ Panel refusal };

    fn from(refusal: PanelRefusal) -> Refusal {
        Refusal::Panel(refusal)
    }
}
