// Looks at a controller's shelf and memory, which change nothing.
ghost use Rattle.std.specs.Prelude.{◌≡◌};
ghost use Rattle.media.specs.Memory.{read_reply};
ghost use Rattle.media.specs.Shelf.{kind_reply, fetch_reply, fetch_buffer};

use crate::controller::Controller;
use media::kinds::Kind;
use media::marks::Mark;
use media::memory::{BusMemory, MemoryRefusal};
use media::shelf::{Shelf, ShelfRefusal};

impl<S: Shelf, M: BusMemory> Controller<S, M> {
    /// The kind of a pack on the shelf.
    pub fn kind_of(&self, pack: u8) -> Result<Kind, ShelfRefusal>
        ensures { result ≡ kind_reply (S.Shelf.packs self.now.shelf) pack }
    {
        self.shelf.kind(pack)
    }

    /// Copies the words of a sector on the shelf into the buffer and answers the sector's mark.
    pub fn sector_of(&self, pack: u8, block: u16, buffer: &mut [u16]) -> Result<Mark, ShelfRefusal>
        ensures reply { result ≡ fetch_reply (S.Shelf.packs self.now.shelf) pack block buffer.old }
        ensures filled { buffer.new ≡ fetch_buffer (S.Shelf.packs self.now.shelf) pack block buffer.old }
    {
        self.shelf.fetch(pack, block, buffer)
    }

    /// The word of memory at an address.
    pub fn word_at(&self, address: u32) -> Result<u16, MemoryRefusal>
        ensures { result ≡ read_reply (M.BusMemory.contents self.now.memory) address }
    {
        self.memory.read(address)
    }
}
