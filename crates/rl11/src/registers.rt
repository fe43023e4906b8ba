// The controller's registers, and the words that the bus reads and writes there.
ghost use Rattle.std.specs.Prelude.{◌≡◌};
ghost use Rattle.rl11.specs.Registers.{register_at, function_number, function_numbered, any_error, IsControlWord, control_fields, fresh_registers, after_address_write, after_silo_read, interrupt_after, after_control_write};

use crate::words::{has_bit, with_extension, with_low_word};

/// What a bus master sees at the controller's four addresses.
#[derive(Clone, Copy, PartialEq, Eq, Debug)]
pub enum Register {
    /// CS, at 0o774400.
    ControlStatus,
    /// BA, at 0o774402.
    BusAddress,
    /// DA, at 0o774404.
    DiskAddress,
    /// MP, at 0o774406.
    Multipurpose,
}

/// A function of the controller.
#[derive(Clone, Copy, PartialEq, Eq, Debug)]
pub enum Function {
    NoOp = 0,
    WriteCheck = 1,
    GetStatus = 2,
    Seek = 3,
    ReadHeader = 4,
    WriteData = 5,
    ReadData = 6,
    ReadWithoutHeaderCheck = 7,
}

/// What went wrong in the last function.
#[derive(Clone, Copy, PartialEq, Eq, Debug)]
pub struct Faults {
    /// The function did not complete.
    pub incomplete: bool,
    /// A check failed.
    pub check: bool,
    /// The sector's header was not found.
    pub no_header: bool,
    /// There was no memory at an address.
    pub no_memory: bool,
}

/// The fields of the control and status register.
#[derive(Clone, Copy, PartialEq, Eq, Debug)]
pub struct ControlStatus {
    /// The selected drive has locked on.
    pub drive_ready: bool,
    pub function: Function,
    /// Bits 16 and 17 of the bus address, as a number below 4.
    pub extension: u8,
    pub enable: bool,
    pub ready: bool,
    /// The selected unit, below 4.
    pub unit: u8,
    pub faults: Faults,
    /// The selected drive has an error.
    pub drive_error: bool,
}

/// What the last write of the control and status register ordered.
#[derive(Clone, Copy, PartialEq, Eq, Debug)]
pub struct Command {
    pub(crate) function: Function,
    pub(crate) unit: u8,
    /// Whether the end of a function makes an interrupt fall due.
    pub(crate) enable: bool,
}

/// The three words that reads of the multipurpose register answer one after another.
#[derive(Clone, Copy, PartialEq, Eq, Debug)]
pub struct Silo {
    pub(crate) first: u16,
    pub(crate) second: u16,
    pub(crate) third: u16,
}

/// All that INIT resets.
#[derive(Clone, Copy, PartialEq, Eq, Debug)]
pub struct Registers {
    pub(crate) command: Command,
    pub(crate) faults: Faults,
    /// The bus address, of 18 bits.
    pub(crate) address: u32,
    pub(crate) disk_address: u16,
    pub(crate) word_count: u16,
    pub(crate) silo: Silo,
    /// The ticks of the function at work; none where the controller is ready.
    pub(crate) working: Option<u16>,
    /// Whether an interrupt is waiting.
    pub(crate) interrupt: bool,
}

impl Register {
    /// The register at a bus address.
    // A named method, which answers an option: an address without a register is no error, as memory may lie there.
    pub(crate) fn at(address: u32) -> Option<Register>
        ensures { result ≡ register_at address }
    {
        match address {
            0o774400 => Some(Register::ControlStatus),
            0o774402 => Some(Register::BusAddress),
            0o774404 => Some(Register::DiskAddress),
            0o774406 => Some(Register::Multipurpose),
            _ => None,
        }
    }
}

/// The function's number, from 0 to 7.
impl From<Function> for u16 {
    ghost from_gives = { λ function number. number ≡ function_number function };

    fn from(function: Function) -> u16 {
        function as u16
    }
}

impl Function {
    // The function with a number below 8; a named function, since `From` would take any number, and `TryFrom` refuse what three bits cannot hold.
    fn numbered(number: u16) -> Function
        ensures { result ≡ function_numbered number }
    {
        match number {
            0 => Function::NoOp,
            1 => Function::WriteCheck,
            2 => Function::GetStatus,
            3 => Function::Seek,
            4 => Function::ReadHeader,
            5 => Function::WriteData,
            6 => Function::ReadData,
            _ => Function::ReadWithoutHeaderCheck,
        }
    }
}

impl Faults {
    /// Nothing went wrong.
    pub(crate) const NONE: Faults = Faults {
        incomplete: false,
        check: false,
        no_header: false,
        no_memory: false,
    };

    // The faults in a control and status word; a named function, since the word has other fields beside them.
    fn from_word(word: u16) -> Faults
        ensures { result ≡ (control_fields word).faults }
    {
        Faults {
            incomplete: has_bit(word, 10),
            check: has_bit(word, 11),
            no_header: has_bit(word, 12),
            no_memory: has_bit(word, 13),
        }
    }
}

impl ControlStatus {
    // Whether anything went wrong, in the controller or in the drive.
    fn any_error(self) -> bool
        ensures { result ≡ any_error self }
    {
        self.faults != Faults::NONE || self.drive_error
    }
}

/// The word that has these fields; its bit 15 is set where any of bits 10 to 14 is.
// By shifts, masks and `|`, a rule of the project for words of fields.
impl From<ControlStatus> for u16 {
    ghost from_gives = { IsControlWord };

    fn from(fields: ControlStatus) -> u16 {
        (fields.any_error() as u16) << 15
            | (fields.drive_error as u16) << 14
            | (fields.faults.no_memory as u16) << 13
            | (fields.faults.no_header as u16) << 12
            | (fields.faults.check as u16) << 11
            | (fields.faults.incomplete as u16) << 10
            | (fields.unit as u16 & 3) << 8
            | (fields.ready as u16) << 7
            | (fields.enable as u16) << 6
            | (fields.extension as u16 & 3) << 4
            | u16::from(fields.function) << 1
            | fields.drive_ready as u16
    }
}

/// The fields of a word.
// By shifts and masks, a rule of the project for words of fields.
impl From<u16> for ControlStatus {
    ghost use Rattle.rl11.specs.Registers.{HasControlFields};

    ghost from_gives = { HasControlFields };

    fn from(word: u16) -> ControlStatus {
        ControlStatus {
            drive_ready: has_bit(word, 0),
            function: Function::numbered(word >> 1 & 7),
            extension: (word >> 4 & 3) as u8,
            enable: has_bit(word, 6),
            ready: has_bit(word, 7),
            unit: (word >> 8 & 3) as u8,
            faults: Faults::from_word(word),
            drive_error: has_bit(word, 14),
        }
    }
}

impl Registers {
    /// The registers of a fresh controller: ready is set, all else zero.
    pub(crate) fn fresh() -> Registers
        ensures { result ≡ fresh_registers }
    {
        Registers {
            command: Command {
                function: Function::NoOp,
                unit: 0,
                enable: false,
            },
            faults: Faults::NONE,
            address: 0,
            disk_address: 0,
            word_count: 0,
            silo: Silo {
                first: 0,
                second: 0,
                third: 0,
            },
            working: None,
            interrupt: false,
        }
    }

    /// A bus write at BA, whose bit 0 stays clear.
    pub(crate) fn write_bus_address(&mut self, word: u16)
        ensures { self.new ≡ after_address_write word self.old }
    {
        self.address = with_low_word(self.address, word);
    }

    /// A bus read at MP: the first word of the silo, and the others move up.
    pub(crate) fn read_silo(&mut self) -> u16
        ensures answer { result ≡ self.old.silo.first }
        ensures after { self.new ≡ after_silo_read self.old }
    {
        let first = self.silo.first;
        self.silo.first = self.silo.second;
        self.silo.second = self.silo.third;
        first
    }

    // Whether an interrupt waits after a bus write at CS.
    fn interrupt_after(&self, written: ControlStatus) -> bool
        ensures { result ≡ interrupt_after written self.now }
    {
        written.enable && (self.interrupt || written.ready && !self.command.enable)
    }

    /// A bus write at CS.
    pub(crate) fn write_control(&mut self, word: u16)
        ensures { self.new ≡ after_control_write word self.old }
    {
        let written = ControlStatus::from(word);
        self.interrupt = self.interrupt_after(written);
        self.command = Command {
            function: written.function,
            unit: written.unit,
            enable: written.enable,
        };
        self.address = with_extension(self.address, written.extension);
        if !written.ready {
            self.faults = Faults::NONE;
            self.working = Some(0);
        }
    }
}
