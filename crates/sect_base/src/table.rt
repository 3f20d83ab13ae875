// Values by numbers.

ghost use Rattle.std.specs.Prelude.{◌≡◌, ℕ, ◌==◌, cond, None, Some, nat_eq, OnOk, OnErr};
ghost use Rattle.std.specs.Option.{is_none};
ghost use Rattle.std.specs.HashMap.{get};
ghost use Rattle.sect_base.specs.Slots.{slot_at, kept};
ghost use Rattle.sect_base.specs.Table.{value_at, Puts, Stays, Removes, Keeps};

use crate::test::Test;
use crate::{Memory, slots};
use std::alloc::Global;
use std::collections::HashMap;

/// Values by numbers. A number has a slot where it is small beside how many there are, so that a table takes no more than a
/// few slots for each value; the values of the others stand in a map.
pub struct Table<V> {
    slots: Vec<Option<V>>,
    others: HashMap<u32, V>,
    bound: usize,
}

/// It is written out, so that a caller does not prove again how each part is dropped.
impl<V: Drop> Drop for Table<V> {
    fn drop(self) {
        let Table {
            slots: _,
            others: _,
            bound: _,
        } = self;
    }
}

impl<V: Copy> Table<V> {
    /// No values. It takes no memory.
    #[tactic(auto, unfolding(crate::specs::Table::value_at))]
    pub fn empty(alloc: Global) -> Table<V>
        ensures { (n : ℕ) → value_at result n ≡ None }
    {
        Table {
            slots: Vec::new(alloc),
            others: HashMap::new(alloc),
            bound: slots::FEW,
        }
    }

    /// The value of a number. It takes no memory.
    #[inline(always)]
    #[tactic(auto, unfolding(crate::specs::Table::value_at))]
    pub fn get(&self, number: u32) -> Option<V>
        ensures { result ≡ value_at self.now number }
    {
        match slots::get(self.slots.as_slice(), number as usize) {
            Some(value) => Some(value),
            None => self.other(number),
        }
    }

    /// The value of a number among those that have no slot.
    fn other(&self, number: u32) -> Option<V>
        ensures { result ≡ get nat_eq self.now.others number }
    {
        if self.others.is_empty() {
            return None;
        }
        self.others.get(&number).copied()
    }

    /// Gives a number this value. Where memory runs out, each keeps what it had.
    #[tactic(auto, unfolding(crate::specs::Table::value_at))]
    pub fn put(&mut self, number: u32, value: V) -> Result<(), Memory>
        ensures ok { OnOk result (Puts self.old self.new number value) }
        ensures err { OnErr result (Stays self.old self.new) }
    {
        if slots::put(&mut self.slots, self.bound, number as usize, value)? {
            self.bound = slots::bound_after(self.bound);
            return Ok(());
        }
        self.others.insert(number, value)?;
        self.bound = slots::bound_after(self.bound);
        Ok(())
    }

    /// Takes a number's value away. It takes no memory.
    #[tactic(auto, unfolding(crate::specs::Table::value_at))]
    pub fn remove(&mut self, number: u32)
        ensures { Removes self.old self.new number }
    {
        slots::clear(&mut self.slots, number as usize);
        self.others.remove(&number);
    }

    /// Takes away the values that don't pass. It takes no memory.
    #[tactic(auto, unfolding(crate::specs::Table::value_at))]
    pub fn keep<T: Test<V>>(&mut self, test: &T)
        ensures { Keeps (T.passes test.now) self.old self.new }
    {
        keep_seen(&mut self.others, self.slots.as_slice());
        keep_passing(&mut self.others, test);
        slots::keep(&mut self.slots, test);
    }
}

/// Forgets the values of numbers that have one in their slot.
fn keep_seen<V: Copy>(others: &mut HashMap<u32, V>, slots: &[Option<V>])
    ensures { (n : ℕ) → get nat_eq others.new n ≡ cond (is_none (slot_at slots.now n)) (get nat_eq others.old n) None }
{
    others.retain(|number, _| slots::get(slots, *number as usize).is_none());
}

/// Forgets the values that don't pass the test.
fn keep_passing<V: Copy, T: Test<V>>(others: &mut HashMap<u32, V>, test: &T)
    ensures { (n : ℕ) → get nat_eq others.new n ≡ kept (T.passes test.now) (get nat_eq others.old n) }
{
    others.retain(|_, value| test.passes(*value));
}
