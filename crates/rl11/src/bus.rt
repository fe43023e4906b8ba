// The bus side of a controller: reads and writes, INIT, and interrupt grants.
ghost use Rattle.std.specs.Prelude.{◌≡◌};
ghost use Rattle.rl11.specs.Bus.{address_reply, bus_read_reply, after_bus_read, bus_write_reply, after_bus_write, after_init, grant_reply, after_grant};
ghost use Rattle.rl11.specs.Machine.{machine_of};

use crate::controller::Controller;
use crate::registers::Register;
use exchanges::refusals::{BusRefusal, GrantRefusal};
use media::memory::BusMemory;
use media::shelf::Shelf;

/// The first address that the bus does not have.
const BUS_END: u32 = 0o1000000;

impl<S: Shelf, M: BusMemory> Controller<S, M> {
    /// A bus read: the word of a register or of memory. A read of the multipurpose register moves the silo's words up.
    pub fn bus_read(&mut self, address: u32) -> Result<u16, BusRefusal>
        ensures reply { result ≡ bus_read_reply address (machine_of S.Shelf.packs M.BusMemory.contents self.old) }
        ensures after { machine_of S.Shelf.packs M.BusMemory.contents self.new ≡ after_bus_read address (machine_of S.Shelf.packs M.BusMemory.contents self.old) }
    {
        check_address(address)?;
        match Register::at(address) {
            Some(register) => Ok(self.core.state.read_register(register)),
            None => self
                .memory
                .read(address)
                .map_err(|_| BusRefusal::NothingThere),
        }
    }

    /// A bus write of a register or of a memory word. A write of the control and status register may begin a function, and while it works no register can be written.
    pub fn bus_write(&mut self, address: u32, word: u16) -> Result<(), BusRefusal>
        ensures reply { result ≡ bus_write_reply address (machine_of S.Shelf.packs M.BusMemory.contents self.old) }
        ensures after { machine_of S.Shelf.packs M.BusMemory.contents self.new ≡ after_bus_write address word (machine_of S.Shelf.packs M.BusMemory.contents self.old) }
    {
        check_address(address)?;
        match Register::at(address) {
            Some(_) if self.core.state.is_working() => Err(BusRefusal::Working),
            Some(register) => {
                self.core.state.write_register(register, word);
                Ok(())
            }
            None => self
                .memory
                .write(address, word)
                .map_err(|_| BusRefusal::NothingThere),
        }
    }

    /// INIT: the controller is as it was made but for its units, the angle, and what is on the shelf and in memory. A function at work is cut off.
    pub fn init(&mut self)
        ensures { machine_of S.Shelf.packs M.BusMemory.contents self.new ≡ after_init (machine_of S.Shelf.packs M.BusMemory.contents self.old) }
    {
        self.core.state.reset();
    }

    /// An interrupt grant: the vector of the waiting interrupt, which then waits no more.
    pub fn grant(&mut self) -> Result<u16, GrantRefusal>
        ensures reply { result ≡ grant_reply (machine_of S.Shelf.packs M.BusMemory.contents self.old) }
        ensures after { machine_of S.Shelf.packs M.BusMemory.contents self.new ≡ after_grant (machine_of S.Shelf.packs M.BusMemory.contents self.old) }
    {
        self.core.state.grant()
    }
}

// Refuses an address that the bus does not have, then an odd one.
fn check_address(address: u32) -> Result<(), BusRefusal>
    ensures { result ≡ address_reply address }
{
    if address >= BUS_END {
        Err(BusRefusal::BeyondBus)
    } else if address % 2 == 1 {
        Err(BusRefusal::OddAddress)
    } else {
        Ok(())
    }
}
