// The rows of one number.

ghost use Rattle.std.specs.Prelude.{
  ◌≡◌,
  ◌<◌,
  ◌≤◌,
  ◌+◌,
  ◌++◌,
  ◌∷◌,
  [],
  length,
  insert,
  slice_get,
  Some,
  IsOk,
  OnOk,
  OnErr,
};

use crate::filed::Keyed;
use sect_base::Memory;
use std::alloc::Global;
use std::marker::Model;

/// The rows of one number, in the order in which they came.
pub struct Slot<R: Keyed + Drop> {
    number: u32,
    rows: Vec<R>,
}

/// It is written out, so that a caller does not prove again how each part is dropped.
impl<R: Keyed + Drop> Drop for Slot<R> {
    fn drop(self) {
        let Slot { number: _, rows: _ } = self;
    }
}

impl<R: Keyed + Drop> Model for Slot<R> {
    ghost use Rattle.std.specs.Vec.{vec_capacity};
    ghost use Rattle.sect_roster.specs.Slots.{Slotted};

    ghost Value = { Slotted R };

    ghost view = { λ s. record { number = s.number; items = s.rows.items; capacity = vec_capacity s.rows } };
}

impl<R: Keyed + Drop> Keyed for Slot<R> {
    ghost key_of = { λ s. s.number };

    fn key(&self) -> u32 {
        self.number
    }
}

impl<R: Keyed + Drop> Slot<R> {
    /// No rows. It takes no memory.
    pub fn empty(alloc: Global, number: u32) -> Slot<R>
        ensures { result ≡ record { number = number; items = []; capacity = 0 } }
    {
        Slot {
            number,
            rows: Vec::new(alloc),
        }
    }

    /// The rows, the earliest first.
    pub fn rows(&self) -> &[R]
        ensures { result.now ≡ self.now.items }
    {
        self.rows.as_slice()
    }

    /// Makes room for `n` rows more. Where memory runs out, the room is as before.
    pub fn reserve(&mut self, n: usize) -> Result<(), Memory>
        ensures number { self.new.number ≡ self.old.number }
        ensures items { self.new.items ≡ self.old.items }
        ensures room { OnOk result (length self.old.items + n ≤ self.new.capacity) }
        ensures grows { self.old.capacity ≤ self.new.capacity }
        ensures enough { length self.old.items + n ≤ self.old.capacity → IsOk result }
    {
        self.rows.reserve(n)?;
        Ok(())
    }

    /// Puts a row behind the others. It takes no memory.
    pub fn insert(&mut self, row: R)
        requires { length self.old.items < self.old.capacity }
        ensures { self.new ≡ record self.old { items = self.old.items ++ row ∷ [] } }
    {
        self.rows.push_reserved(row);
    }

    /// Puts a row behind the others, with room made where there is none. Where memory runs out, the rows are as before.
    pub fn push(&mut self, row: R) -> Result<(), Memory>
        ensures number { self.new.number ≡ self.old.number }
        ensures ok { OnOk result (self.new.items ≡ self.old.items ++ row ∷ []) }
        ensures err { OnErr result (self.new.items ≡ self.old.items) }
        ensures grows { self.old.capacity ≤ self.new.capacity }
        ensures enough { length self.old.items < self.old.capacity → IsOk result }
    {
        self.rows.push(row)?;
        Ok(())
    }

    /// Takes the row at a place out. It takes no memory.
    pub fn remove(&mut self, place: usize) -> R
        requires { place < length self.old.items }
        ensures row { Some result ≡ slice_get self.old.items place }
        ensures number { self.new.number ≡ self.old.number }
        ensures capacity { self.new.capacity ≡ self.old.capacity }
        ensures back { self.old.items ≡ insert self.new.items place result }
        ensures within { place ≤ length self.new.items }
        ensures room { length self.old.items ≤ self.old.capacity }
    {
        self.rows.remove(place)
    }

    /// Puts a row back where it stood. It takes no memory.
    pub fn put_back(&mut self, place: usize, row: R)
        requires room { length self.old.items < self.old.capacity }
        requires within { place ≤ length self.old.items }
        ensures { self.new ≡ record self.old { items = insert self.old.items place row } }
    {
        if self.rows.insert(place, row).is_err() {
            unreachable!();
        }
    }
}
