// What follows the first word of a line.
ghost use Rattle.std.specs.Prelude.{◌≡◌, ◌≤◌, [], ◌∷◌, IfOk, IfErr};
ghost use Rattle.script.specs.Arguments.{argument, wanted, closed};
ghost use Rattle.script.specs.Words.{others_of};
ghost use Rattle.script.specs.declared.faults.Fault.TheVariants.{MissingWord};
ghost use Rattle.script.specs.declared.numbers.Base.TheVariants.{Decimal};

use crate::faults::Fault;
use crate::numbers::{Base, number, number_u16};
use crate::words::Words;

// Each of these takes a word and leaves the others, which its own contract has to say. Numbers of 32, 16 and 8 bits are three functions:
// one that is generic over them would need a trait of its own, to say that a number stays the same.
impl<'a> Words<'a> {
    /// Takes the next word, which has to be there.
    pub(crate) fn next_word(&mut self) -> Result<&'a [u8], Fault>
        ensures ok { IfOk result (λ word. self.old ≡ word.now ∷ self.new) }
        ensures err { IfErr result (λ fault. (fault ≡ MissingWord) × (self.old ≡ []) × (self.new ≡ [])) }
    {
        self.next().ok_or(Fault::MissingWord)
    }

    /// Takes a word that writes a number up to a limit.
    pub(crate) fn take_number(&mut self, base: Base, limit: u32) -> Result<u32, Fault>
        ensures value { result ≡ argument base limit self.old }
        ensures within { IfOk result (λ n. n ≤ limit) }
        ensures left { self.new ≡ others_of self.old }
    {
        number(self.next_word()?, base, limit)
    }

    /// Takes a word that writes a number of 16 bits.
    pub(crate) fn take_u16(&mut self, base: Base) -> Result<u16, Fault>
        ensures value { result ≡ argument base 65535 self.old }
        ensures left { self.new ≡ others_of self.old }
    {
        number_u16(self.next_word()?, base)
    }

    /// Takes a word that writes a decimal number of 8 bits.
    pub(crate) fn take_u8(&mut self) -> Result<u8, Fault>
        ensures value { result ≡ argument Decimal 255 self.old }
        ensures left { self.new ≡ others_of self.old }
    {
        Ok(self.take_number(Base::Decimal, u32::from(u8::MAX))? as u8)
    }

    /// Takes a word that is spelt so.
    pub(crate) fn take_word(&mut self, spelling: &[u8]) -> Result<(), Fault>
        ensures value { result ≡ wanted spelling.now self.old }
        ensures left { self.new ≡ others_of self.old }
    {
        if self.next_word()? == spelling {
            Ok(())
        } else {
            Err(Fault::UnknownWord)
        }
    }

    /// Gives a value back if no word is left.
    pub(crate) fn close<T: Drop>(&mut self, value: T) -> Result<T, Fault>
        ensures { result ≡ closed value self.old }
    {
        match self.next() {
            Some(_) => Err(Fault::ExtraWord),
            None => Ok(value),
        }
    }
}
