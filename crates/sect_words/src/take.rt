// Taking values from the front of parts.

ghost use Rattle.std.specs.Prelude.{◌≡◌, ◌<◌, ◌≤◌, ℕ, List, IfOk, length};
ghost use Rattle.sect_words.specs.Reading.{Reads, Passes, Ends, word_at, key_at};
ghost use Rattle.sect_words.specs.ReadingWords.{between_of};

use crate::fault::Fault;
use crate::parts::Parts;
use crate::readable::Readable;
use std::alloc::Global;

impl Parts<'_> {
    /// The value of the next part, which is taken.
    pub fn word<T: Readable>(&mut self, alloc: Global) -> Result<T, Fault>
        ensures reads { Reads result self.new (word_at T.reads self.old) }
        ensures shorter { IfOk result (λ _. length self.new < length self.old) }
    {
        T::read_next(alloc, self)
    }

    /// The number from `least` to `most` in the next part, which is taken.
    #[tactic(auto, unfolding(crate::specs::ReadingWords::between_of))]
    pub fn between(&mut self, least: u32, most: u32) -> Result<u32, Fault>
        ensures range { IfOk result (λ n. (least ≤ n) × (n ≤ most)) }
        ensures reads { Reads result self.new (word_at (between_of least most) self.old) }
        ensures shorter { IfOk result (λ _. length self.new < length self.old) }
    {
        let number = self.take_number(u64::from(most))? as u32;
        if number < least {
            return Err(Fault::Bad);
        }
        Ok(number)
    }

    /// Takes the next part, which has to be this word.
    pub fn key(&mut self, word: &[u8]) -> Result<(), Fault>
        ensures passes { Passes result self.new (key_at word.now self.old) }
        ensures shorter { IfOk result (λ _. length self.new < length self.old) }
    {
        if self.takes(word) {
            Ok(())
        } else {
            Err(Fault::Bad)
        }
    }

    /// Nothing has to be left.
    pub fn end(&self) -> Result<(), Fault>
        ensures { Ends result self.now }
    {
        if self.is_empty() {
            Ok(())
        } else {
            Err(Fault::Bad)
        }
    }
}
