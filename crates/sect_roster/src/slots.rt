// The rows of all numbers.

ghost use Rattle.std.specs.Prelude.{
  ◌≡◌,
  ◌==◌,
  ◌<◌,
  ◌≤◌,
  ◌-◌,
  ℕ,
  [],
  slice_get,
  Some,
  IfOk,
  IsOk,
  IsTrue,
  IfNone,
  IfSome,
  OnOk,
  OnErr,
  false,
  true,
};
ghost use Rattle.std.specs.List.{list_any};
ghost use Rattle.sect_model.specs.World.{put_behind};
ghost use Rattle.sect_model.specs.Kept.{is_ordered_by};
ghost use Rattle.sect_roster.specs.Slots.{
  rows_of,
  number_of,
  put_among,
  capacity_of,
  all_held,
  capacity_in,
  are_slots,
  HasSlot,
};

use crate::filed::Keyed;
use crate::rank::{first_guess, rank_near};
use crate::slot::Slot;
use sect_base::Memory;
use std::alloc::Global;
use std::marker::Model;

/// Rows in order of a number, and for one number in the order in which they came. They are seen as that list, with the room
/// that each number has. No call walks or moves the rows of other numbers, but for `list`.
pub struct Slots<R: Keyed + Drop> {
    slots: Vec<Slot<R>>,
}

/// It is written out, so that a caller does not prove again how each part is dropped.
impl<R: Keyed + Drop> Drop for Slots<R> {
    fn drop(self) {
        let Slots { slots: _ } = self;
    }
}

impl<R: Keyed + Drop> Model for Slots<R> {
    ghost use Rattle.std.specs.Prelude.{IsTrue};
    ghost use Rattle.sect_roster.specs.Slots.{InSlots, all_held, all_rooms, are_slots};

    ghost Value = { InSlots R };

    ghost view = { λ r. record { items = all_held r.slots.items; rooms = all_rooms r.slots.items } };

    ghost invariant = { λ r. IsTrue (are_slots R.key_of r.slots.items) };
}

impl<R: Keyed + Drop> Slots<R> {
    /// No rows. It takes no memory.
    pub fn empty(alloc: Global) -> Slots<R>
        ensures { result ≡ record { items = []; rooms = [] } }
    {
        Slots {
            slots: Vec::new(alloc),
        }
    }

    /// Does nothing: the contract tells what holds of all slots.
    pub fn recall_order(&self)
        ensures { IsTrue (is_ordered_by R.key_of self.now.items) }
    {
        let _ = &self.slots;
    }

    /// The rows of a number, the earliest first. It takes no memory.
    pub fn rows_of(&self, number: u32) -> &[R]
        ensures { result.now ≡ rows_of R.key_of number self.now.items }
    {
        match place_of(self.slots.as_slice(), number) {
            Some(place) => self.slots[place].rows(),
            None => &[],
        }
    }

    /// Makes room for `n` rows more of a number. Where memory runs out, there is as much room as before.
    pub fn reserve(&mut self, number: u32, n: usize) -> Result<(), Memory>
        ensures items { self.new.items ≡ self.old.items }
        ensures room { OnOk result (n ≤ capacity_of self.new.rooms number - number_of R.key_of number self.old.items) }
        ensures grows { (m : ℕ) → capacity_of self.old.rooms m ≤ capacity_of self.new.rooms m }
        ensures enough { n ≤ capacity_of self.old.rooms number - number_of R.key_of number self.old.items → IsOk result }
    {
        if n == 0 {
            return Ok(());
        }
        let place = slot_for(&mut self.slots, number)?;
        self.slots[place].reserve(n)
    }

    /// Gives a number a slot, with no room, where there is none: so numbers that come in rising order stand behind one
    /// another. Where memory runs out, nothing is changed.
    pub fn add_slot(&mut self, number: u32) -> Result<(), Memory>
        ensures items { self.new.items ≡ self.old.items }
        ensures grows { (m : ℕ) → capacity_of self.old.rooms m ≤ capacity_of self.new.rooms m }
    {
        let _ = slot_for(&mut self.slots, number)?;
        Ok(())
    }

    /// Puts a row behind the others of its number. It takes no memory.
    pub fn insert(&mut self, row: R)
        requires { number_of R.key_of (R.key_of row) self.old.items < capacity_of self.old.rooms (R.key_of row) }
        ensures { self.new ≡ record self.old { items = put_behind R.key_of row self.old.items } }
    {
        match place_of(self.slots.as_slice(), row.key()) {
            Some(place) => self.slots[place].insert(row),
            None => unreachable!(),
        }
    }

    /// Puts a row behind the others of its number. Where memory runs out, the rows are as before; it takes none where there is
    /// room.
    pub fn push(&mut self, row: R) -> Result<(), Memory>
        ensures ok { OnOk result (self.new.items ≡ put_behind R.key_of row self.old.items) }
        ensures err { OnErr result (self.new.items ≡ self.old.items) }
        ensures grows { (m : ℕ) → capacity_of self.old.rooms m ≤ capacity_of self.new.rooms m }
        ensures enough { number_of R.key_of (R.key_of row) self.old.items < capacity_of self.old.rooms (R.key_of row) → IsOk result }
    {
        let place = slot_for(&mut self.slots, row.key())?;
        self.slots[place].push(row)
    }

    /// Takes the row at a place among those of a number out. It takes no memory.
    pub fn remove(&mut self, number: u32, place: usize) -> R
        requires { place < number_of R.key_of number self.old.items }
        ensures row { Some result ≡ slice_get (rows_of R.key_of number self.old.items) place }
        ensures number { R.key_of result ≡ number }
        ensures back { self.old.items ≡ put_among R.key_of place result self.new.items }
        ensures within { place ≤ number_of R.key_of number self.new.items }
        ensures rooms { self.new.rooms ≡ self.old.rooms }
        ensures room { number_of R.key_of number self.old.items ≤ capacity_of self.old.rooms number }
    {
        match place_of(self.slots.as_slice(), number) {
            Some(slot) => self.slots[slot].remove(place),
            None => unreachable!(),
        }
    }

    /// Puts a row back where it stood among those of its number. It takes no memory.
    pub fn put_back(&mut self, place: usize, row: R)
        requires room { number_of R.key_of (R.key_of row) self.old.items < capacity_of self.old.rooms (R.key_of row) }
        requires within { place ≤ number_of R.key_of (R.key_of row) self.old.items }
        ensures { self.new ≡ record self.old { items = put_among R.key_of place row self.old.items } }
    {
        match place_of(self.slots.as_slice(), row.key()) {
            Some(slot) => self.slots[slot].put_back(place, row),
            None => unreachable!(),
        }
    }
}

impl<R: Keyed + Drop + Copy> Slots<R> {
    /// All rows, in order of their numbers.
    pub fn list(&self, alloc: Global) -> Result<Vec<R>, Memory>
        ensures { IfOk result (λ rows. rows.items ≡ self.now.items) }
    {
        listed(self.slots.as_slice(), alloc)
    }
}

/// Where the slot of a number stands, if it has one.
fn place_of<R: Keyed + Drop>(slots: &[Slot<R>], number: u32) -> Option<usize>
    requires { IsTrue (are_slots R.key_of slots.now) }
    ensures found { IfSome result (λ k. HasSlot slots.now number k) }
    ensures none { IfNone result (list_any (λ s. s.number == number) slots.now ≡ false) }
{
    match guessed(slots, number) {
        Some(place) => Some(place),
        None => searched(slots, number),
    }
}

/// Where the slot of a number stands if each number between the first and this one has a slot, as it mostly is.
fn guessed<R: Keyed + Drop>(slots: &[Slot<R>], number: u32) -> Option<usize>
    ensures { IfSome result (λ k. HasSlot slots.now number k) }
{
    let place = first_guess(slots, number);
    match slots.get(place) {
        Some(slot) => {
            if slot.key() == number {
                Some(place)
            } else {
                None
            }
        }
        None => None,
    }
}

/// Where the slot of a number stands, by its rank.
fn searched<R: Keyed + Drop>(slots: &[Slot<R>], number: u32) -> Option<usize>
    requires { IsTrue (are_slots R.key_of slots.now) }
    ensures found { IfSome result (λ k. HasSlot slots.now number k) }
    ensures none { IfNone result (list_any (λ s. s.number == number) slots.now ≡ false) }
{
    let place = rank_near(slots, number as u64, first_guess(slots, number));
    match slots.get(place) {
        Some(slot) => {
            if slot.key() == number {
                Some(place)
            } else {
                None
            }
        }
        None => None,
    }
}

/// Where the slot of a number stands. It is made where there is none. Where memory runs out, nothing is made.
fn slot_for<R: Keyed + Drop>(slots: &mut Vec<Slot<R>>, number: u32) -> Result<usize, Memory>
    requires { IsTrue (are_slots R.key_of slots.old.items) }
    ensures slots { IsTrue (are_slots R.key_of slots.new.items) }
    ensures held { all_held slots.new.items ≡ all_held slots.old.items }
    ensures capacity { (m : ℕ) → capacity_in slots.new.items m ≡ capacity_in slots.old.items m }
    ensures place { IfOk result (λ k. HasSlot slots.new.items number k) }
    ensures known { list_any (λ s. s.number == number) slots.old.items ≡ true → IsOk result }
{
    match place_of(slots.as_slice(), number) {
        Some(place) => Ok(place),
        None => new_slot(slots, number),
    }
}

/// Makes a slot for a number that has none, and tells where it stands. Where memory runs out, nothing is made.
fn new_slot<R: Keyed + Drop>(slots: &mut Vec<Slot<R>>, number: u32) -> Result<usize, Memory>
    requires slots { IsTrue (are_slots R.key_of slots.old.items) }
    requires none { list_any (λ s. s.number == number) slots.old.items ≡ false }
    ensures slots { IsTrue (are_slots R.key_of slots.new.items) }
    ensures held { all_held slots.new.items ≡ all_held slots.old.items }
    ensures capacity { (m : ℕ) → capacity_in slots.new.items m ≡ capacity_in slots.old.items m }
    ensures place { IfOk result (λ k. HasSlot slots.new.items number k) }
{
    slots.reserve(1)?;
    let place = rank_near(
        slots.as_slice(),
        number as u64,
        first_guess(slots.as_slice(), number),
    );
    let slot = Slot::empty(*slots.allocator(), number);
    if slots.insert(place, slot).is_err() {
        unreachable!();
    }
    Ok(place)
}

/// The rows of all slots.
fn listed<R: Keyed + Drop + Copy>(slots: &[Slot<R>], alloc: Global) -> Result<Vec<R>, Memory>
    ensures { IfOk result (λ rows. rows.items ≡ all_held slots.now) }
{
    let mut rows = Vec::new(alloc);
    for slot in slots {
        rows.extend_from_slice(slot.rows())?;
    }
    Ok(rows)
}
