// Counts of numbers.

ghost use Rattle.std.specs.Prelude.{◌≡◌, ℕ, ◌+◌, ◌==◌, cond, OnOk};
ghost use Rattle.sect_survey.specs.Counted.{count_in};

use sect_base::Memory;
use std::alloc::Global;
use std::collections::HashMap;

/// How often each number was counted.
#[derive(Drop)]
pub struct Counts {
    counts: HashMap<u32, u32>,
}

impl Counts {
    /// Nothing was counted. It takes no memory.
    pub fn none(alloc: Global) -> Counts
        ensures { (n : ℕ) → count_in result n ≡ 0 }
    {
        Counts {
            counts: HashMap::new(alloc),
        }
    }

    /// How often a number was counted. It takes no memory.
    pub fn get(&self, number: u32) -> u32
        ensures { result ≡ count_in self.now number }
    {
        self.counts.get(&number).copied().unwrap_or(0)
    }

    /// Counts a number once more. A count that has no room for it is answered `Memory`.
    pub fn add(&mut self, number: u32) -> Result<(), Memory>
        ensures { OnOk result ((n : ℕ) → count_in self.new n ≡ count_in self.old n + cond (number == n) 1 0) }
    {
        match self.get(number).checked_add(1) {
            Some(more) => {
                self.counts.insert(number, more)?;
                Ok(())
            }
            None => Err(Memory),
        }
    }
}
