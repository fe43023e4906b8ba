// Any call by one method.
ghost use Rattle.std.specs.Prelude.{◌≡◌, OnErr};
ghost use Rattle.rl11.specs.Machine.{machine_of};
ghost use Rattle.rl11.specs.Sends.{answer_to, after_call};

use crate::controller::Controller;
use exchanges::calls::{Answer, Call, Reply};
use media::memory::BusMemory;
use media::shelf::Shelf;

impl<S: Shelf, M: BusMemory> Controller<S, M> {
    /// Sends any call, and gives its answer.
    pub fn send(&mut self, call: Call) -> Answer
        ensures answer { result ≡ answer_to call (machine_of S.Shelf.packs M.BusMemory.contents self.old) }
        ensures after { machine_of S.Shelf.packs M.BusMemory.contents self.new ≡ after_call call (machine_of S.Shelf.packs M.BusMemory.contents self.old) }
        ensures unchanged { OnErr result (machine_of S.Shelf.packs M.BusMemory.contents self.new ≡ machine_of S.Shelf.packs M.BusMemory.contents self.old) }
    {
        match call {
            Call::Read { address } => Ok(Reply::Word(self.bus_read(address)?)),
            Call::Write { address, word } => {
                self.bus_write(address, word)?;
                Ok(Reply::Done)
            }
            Call::Init => {
                self.init();
                Ok(Reply::Done)
            }
            Call::Grant => Ok(Reply::Vector(self.grant()?)),
            Call::Load { unit, pack } => {
                self.load(unit, pack)?;
                Ok(Reply::Done)
            }
            Call::Unload { unit } => {
                self.unload(unit)?;
                Ok(Reply::Done)
            }
            Call::Protect { unit } => {
                self.protect(unit)?;
                Ok(Reply::Done)
            }
        }
    }
}
