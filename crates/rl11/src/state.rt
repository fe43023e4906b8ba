// The controller without its shelf and its memory: registers, drives and the angle of the packs.
ghost use Rattle.std.specs.Prelude.{◌≡◌};
ghost use Rattle.rl11.specs.State.{fresh_state, selected, control_status, register_word, after_register_read, after_register_write, is_working, after_reset, vector_reply, after_withdrawal};

use crate::drive::Drive;
use crate::registers::{ControlStatus, Register, Registers};
use crate::words::{extension, low_word};
use exchanges::refusals::GrantRefusal;
use media::kinds::Kind;

/// How many units there are.
pub const UNITS: usize = 4;

/// The vector of the controller's interrupt.
const VECTOR: u16 = 0o160;

/// The controller without its shelf and its memory.
#[derive(Clone, Copy, PartialEq, Eq, Debug)]
pub struct State {
    pub(crate) registers: Registers,
    pub(crate) drives: [Drive; UNITS],
    /// Which sector of every track is under the heads.
    pub(crate) angle: u8,
}

impl State {
    /// A fresh controller, with drives of these kinds.
    pub(crate) fn fresh(kinds: [Option<Kind>; UNITS]) -> State
        ensures { result ≡ fresh_state kinds }
    {
        State {
            registers: Registers::fresh(),
            drives: kinds.map(Drive::new),
            angle: 0,
        }
    }

    // The drive that the control and status register selects.
    fn selected(&self) -> Drive
        ensures { result ≡ selected self.now }
    {
        self.drives[usize::from(self.registers.command.unit % 4)]
    }

    // The fields of the control and status register.
    fn control_status(&self) -> ControlStatus
        ensures { result ≡ control_status self.now }
    {
        let drive = self.selected();
        ControlStatus {
            drive_ready: drive.exists() && drive.is_locked(),
            function: self.registers.command.function,
            extension: extension(self.registers.address),
            enable: self.registers.command.enable,
            ready: !self.is_working(),
            unit: self.registers.command.unit,
            faults: self.registers.faults,
            drive_error: drive.exists() && drive.has_error(),
        }
    }

    /// Whether a function is at work.
    pub(crate) fn is_working(&self) -> bool
        ensures { result ≡ is_working self.now }
    {
        self.registers.working.is_some()
    }

    /// A bus read of a register.
    pub(crate) fn read_register(&mut self, register: Register) -> u16
        ensures answer { result ≡ register_word register self.old }
        ensures after { self.new ≡ after_register_read register self.old }
    {
        match register {
            Register::ControlStatus => u16::from(self.control_status()),
            Register::BusAddress => low_word(self.registers.address),
            Register::DiskAddress => self.registers.disk_address,
            Register::Multipurpose => self.registers.read_silo(),
        }
    }

    /// A bus write of a register.
    pub(crate) fn write_register(&mut self, register: Register, word: u16)
        ensures { self.new ≡ after_register_write register word self.old }
    {
        match register {
            Register::ControlStatus => self.registers.write_control(word),
            Register::BusAddress => self.registers.write_bus_address(word),
            Register::DiskAddress => self.registers.disk_address = word,
            Register::Multipurpose => self.registers.word_count = word,
        }
    }

    /// INIT: all is as in a fresh controller but the drives and the angle.
    pub(crate) fn reset(&mut self)
        ensures { self.new ≡ after_reset self.old }
    {
        self.registers = Registers::fresh();
    }

    /// Grants the waiting interrupt, which then waits no more.
    pub(crate) fn grant(&mut self) -> Result<u16, GrantRefusal>
        ensures reply { result ≡ vector_reply self.old }
        ensures after { self.new ≡ after_withdrawal self.old }
    {
        if self.registers.interrupt {
            self.registers.interrupt = false;
            Ok(VECTOR)
        } else {
            Err(GrantRefusal::NothingWaiting)
        }
    }
}
