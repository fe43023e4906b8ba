// Calls and looks, as a script has them.
ghost use Rattle.std.specs.Prelude.{◌≡◌};
ghost use Rattle.script.specs.Steps.{read_step, write_step, load_step, unload_step, protect_step, sector_step, memory_step, kind_step};

use crate::faults::Fault;
use crate::numbers::Base;
use crate::words::Words;
use exchanges::calls::Call;

/// What a script asks to be shown.
#[derive(Clone, Copy, PartialEq, Eq, Debug)]
pub enum Look {
    /// A sector of a pack of the shelf.
    Sector { pack: u8, block: u16 },
    /// Words of memory from an address on.
    Memory { address: u32, count: u32 },
    /// The kind of a pack of the shelf.
    Kind { pack: u8 },
}

/// A line of a script that is run.
#[derive(Clone, Copy, PartialEq, Eq, Debug)]
pub enum Step {
    Call(Call),
    Look(Look),
}

/// A bus read: an address.
pub(crate) fn take_read(words: &mut Words) -> Result<Step, Fault>
    ensures { result ≡ read_step words.old }
{
    let address = words.take_number(Base::Octal, u32::MAX)?;
    words.close(Step::Call(Call::Read { address }))
}

/// A bus write: an address and a word.
pub(crate) fn take_write(words: &mut Words) -> Result<Step, Fault>
    ensures { result ≡ write_step words.old }
{
    let address = words.take_number(Base::Octal, u32::MAX)?;
    let word = words.take_u16(Base::Octal)?;
    words.close(Step::Call(Call::Write { address, word }))
}

/// A load press: a unit and a pack.
pub(crate) fn take_load(words: &mut Words) -> Result<Step, Fault>
    ensures { result ≡ load_step words.old }
{
    let unit = words.take_u8()?;
    let pack = words.take_u8()?;
    words.close(Step::Call(Call::Load { unit, pack }))
}

/// An unload press: a unit.
// The two presses differ in their call alone; one function that takes the call's maker would be no shorter.
pub(crate) fn take_unload(words: &mut Words) -> Result<Step, Fault>
    ensures { result ≡ unload_step words.old }
{
    let unit = words.take_u8()?;
    words.close(Step::Call(Call::Unload { unit }))
}

/// A press of the protect switch: a unit.
pub(crate) fn take_protect(words: &mut Words) -> Result<Step, Fault>
    ensures { result ≡ protect_step words.old }
{
    let unit = words.take_u8()?;
    words.close(Step::Call(Call::Protect { unit }))
}

/// A look at a sector: a pack and a block.
pub(crate) fn take_sector(words: &mut Words) -> Result<Step, Fault>
    ensures { result ≡ sector_step words.old }
{
    let pack = words.take_u8()?;
    let block = words.take_u16(Base::Decimal)?;
    words.close(Step::Look(Look::Sector { pack, block }))
}

/// A look at memory from an address on: how many words.
pub(crate) fn take_memory(words: &mut Words, address: u32) -> Result<Step, Fault>
    ensures { result ≡ memory_step address words.old }
{
    let count = words.take_number(Base::Decimal, u32::MAX)?;
    words.close(Step::Look(Look::Memory { address, count }))
}

/// A look at the kind of a pack.
pub(crate) fn take_kind(words: &mut Words) -> Result<Step, Fault>
    ensures { result ≡ kind_step words.old }
{
    let pack = words.take_u8()?;
    words.close(Step::Look(Look::Kind { pack }))
}
