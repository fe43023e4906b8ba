// A board: a bus memory over a slice of words, from address 0 on.
ghost use Rattle.std.specs.Prelude.{◌≡◌};
ghost use Rattle.memories.specs.Board.{board_contents, board_after_write};
ghost use Rattle.media.specs.Memory.{write_reply, after_write};
ghost use Rattle.media.specs.Laws.{at_places_placed};

use media::memory::{BusMemory, MemoryRefusal, check_address};

/// A memory whose word at address a is word a / 2 of a slice; words that would lie at or above 0o760000 are never reached.
#[derive(Drop)]
pub struct Board<'a> {
    words: &'a mut [u16],
}

impl<'a> Board<'a> {
    /// The board over these words.
    pub fn new(words: &'a mut [u16]) -> Board<'a>
        ensures meaning { board_contents result.words.now ≡ board_contents words.old }
        ensures lent { result.words ≡ words.entry }
    {
        Board { words }
    }
}

impl BusMemory for Board<'_> {
    ghost contents = { λ b. board_contents b.words.now };

    ghost placed = { λ b. at_places_placed _ };

    fn read(&self, address: u32) -> Result<u16, MemoryRefusal> {
        check_address(address)?;
        self.words
            .get((address / 2) as usize)
            .copied()
            .ok_or(MemoryRefusal::NoWord)
    }

    fn write(&mut self, address: u32, word: u16) -> Result<(), MemoryRefusal>
        ensures reply { result ≡ write_reply (board_contents self.old.words.now) address }
        ensures after { board_contents self.new.words.now ≡ after_write (board_contents self.old.words.now) address word }
        ensures slice { self.new.words.now ≡ board_after_write self.old.words.now address word }
        ensures lender { self.new.words.ghost_name ≡ self.old.words.ghost_name }
    {
        check_address(address)?;
        // By its index: through the place that `get_mut` lends, the words after the write were not proved.
        let index = (address / 2) as usize;
        if index >= self.words.len() {
            return Err(MemoryRefusal::NoWord);
        }
        self.words[index] = word;
        Ok(())
    }
}
