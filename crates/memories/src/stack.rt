// A stack: a bus memory made of two others, one above the other.
ghost use Rattle.std.specs.Prelude.{◌≡◌};
ghost use Rattle.media.specs.Memory.{write_reply, after_write};
ghost use Rattle.media.specs.Laws.{at_places_placed};
ghost use Rattle.memories.specs.Stack.{even_border, stack_contents, stack_meaning, lower_after_write, upper_after_write};

use media::memory::{BusMemory, MemoryRefusal, check_address};

/// A memory whose addresses below a border go to one memory, and the rest, less the border, to another. An odd border is lowered by one.
#[derive(Drop)]
pub struct Stack<L, U> {
    border: u32,
    lower: L,
    upper: U,
}

impl<L: BusMemory, U: BusMemory> Stack<L, U> {
    /// The stack of two memories.
    pub fn new(border: u32, lower: L, upper: U) -> Stack<L, U>
        ensures meaning { stack_meaning L.BusMemory.contents U.BusMemory.contents result ≡ stack_contents (even_border border) (L.BusMemory.contents lower) (U.BusMemory.contents upper) }
        ensures border { result.border ≡ border }
        ensures below { result.lower ≡ lower }
        ensures above { result.upper ≡ upper }
    {
        Stack {
            border,
            lower,
            upper,
        }
    }

    // Where the upper memory begins: an odd border is lowered by one.
    fn line(&self) -> u32
        ensures { result ≡ even_border self.now.border }
    {
        self.border - self.border % 2
    }

    /// The two memories, the lower one first.
    pub fn into_parts(self) -> (L, U)
        ensures below { result.0 ≡ self.lower }
        ensures above { result.1 ≡ self.upper }
    {
        let Stack {
            border: _,
            lower,
            upper,
        } = self;
        (lower, upper)
    }
}

impl<L: BusMemory, U: BusMemory> BusMemory for Stack<L, U> {
    ghost contents = { stack_meaning L.BusMemory.contents U.BusMemory.contents };

    ghost placed = { λ s. at_places_placed _ };

    fn read(&self, address: u32) -> Result<u16, MemoryRefusal> {
        check_address(address)?;
        let line = self.line();
        if address < line {
            self.lower.read(address)
        } else {
            self.upper.read(address - line)
        }
    }

    fn write(&mut self, address: u32, word: u16) -> Result<(), MemoryRefusal>
        ensures reply { result ≡ write_reply (stack_meaning L.BusMemory.contents U.BusMemory.contents self.old) address }
        ensures after { stack_meaning L.BusMemory.contents U.BusMemory.contents self.new ≡ after_write (stack_meaning L.BusMemory.contents U.BusMemory.contents self.old) address word }
        ensures border { self.new.border ≡ self.old.border }
        ensures below { L.BusMemory.contents self.new.lower ≡ lower_after_write (even_border self.old.border) (L.BusMemory.contents self.old.lower) address word }
        ensures above { U.BusMemory.contents self.new.upper ≡ upper_after_write (even_border self.old.border) (U.BusMemory.contents self.old.upper) address word }
    {
        check_address(address)?;
        let line = self.line();
        if address < line {
            self.lower.write(address, word)
        } else {
            self.upper.write(address - line, word)
        }
    }
}
