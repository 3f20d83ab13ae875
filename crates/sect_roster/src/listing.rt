// Rows filed by offering and found by id.

ghost use Rattle.std.specs.Prelude.{
  ◌≡◌,
  ◌<◌,
  ◌≤◌,
  ◌+◌,
  ◌-◌,
  ◌==◌,
  ℕ,
  not,
  [],
  filter,
  find,
  map,
  position,
  option_copied,
  Some,
  IsSome,
  IsNone,
  IsOk,
  OnOk,
  OnErr,
};
ghost use Rattle.std.specs.List.{position_or_len};
ghost use Rattle.std.specs.Option.{option_map};
ghost use Rattle.sect_people.specs.Order.{sorted_by};
ghost use Rattle.sect_model.specs.World.{put_behind};
ghost use Rattle.sect_roster.specs.Slots.{rows_of, number_of, put_among, capacity_of};

use crate::filed::Filed;
use crate::mark::Mark;
use crate::marks::{offering_of, put_mark, take_mark};
use crate::slots::Slots;
use sect_base::Memory;
use std::alloc::Global;
use std::marker::Model;

/// Rows in order of offering, and for one offering in the order in which they came, no two with one id.
pub struct Listing<R: Filed> {
    pub(crate) slots: Slots<R>,
    /// The offering of each id, in order of id.
    marks: Vec<Mark>,
}

/// It is written out, so that a caller does not prove again how each part is dropped.
impl<R: Filed + Drop> Drop for Listing<R> {
    fn drop(self) {
        let Listing { slots: _, marks: _ } = self;
    }
}

impl<R: Filed> Model for Listing<R> {
    ghost use Rattle.std.specs.Prelude.{◌-◌};
    ghost use Rattle.std.specs.Vec.{vec_len, vec_capacity};
    ghost use Rattle.sect_roster.specs.Listed.{Listed};

    ghost Value = { Listed R };

    ghost use Rattle.sect_roster.specs.Filed.{Keeps};

    ghost view = { λ l. record { items = l.slots.items; rooms = l.slots.rooms; spare = vec_capacity l.marks - vec_len l.marks } };

    ghost invariant = { λ l. Keeps R.key_of R.id_of l.slots.items l.marks.items };
}

impl<R: Filed> Listing<R> {
    /// No rows. It takes no memory.
    pub fn empty(alloc: Global) -> Listing<R>
        ensures { result ≡ record { items = []; rooms = []; spare = 0 } }
    {
        Listing {
            slots: Slots::empty(alloc),
            marks: Vec::new(alloc),
        }
    }

    /// The rows of an offering, the earliest first. It takes no memory.
    pub fn of_key(&self, key: u32) -> &[R]
        ensures { result.now ≡ filter (λ r. R.key_of r == key) self.now.items }
    {
        self.slots.rows_of(key)
    }

    /// The row of an id, None exactly where it is unknown. It takes no memory.
    pub fn get(&self, id: u32) -> Option<&R>
        ensures { option_copied result ≡ find (λ r. R.id_of r == id) self.now.items }
    {
        let offering = self.offering(id)?;
        let rows = self.slots.rows_of(offering);
        rows.get(first_of(rows, id))
    }

    /// The marks of all rows, in order of id. It takes no memory.
    pub fn marks(&self) -> &[Mark]
        ensures { map (λ m. m.id) result.now ≡ map R.id_of (sorted_by R.id_of self.now.items) }
    {
        self.marks.as_slice()
    }

    /// Makes room for `n` rows more of an offering. Where memory runs out, the rows are as before.
    pub fn reserve(&mut self, key: u32, n: usize) -> Result<(), Memory>
        ensures items { self.new.items ≡ self.old.items }
        ensures room { OnOk result (n ≤ capacity_of self.new.rooms key - number_of R.key_of key self.old.items) }
        ensures spare { OnOk result (n ≤ self.new.spare) }
        ensures room_grows { (m : ℕ) → capacity_of self.old.rooms m ≤ capacity_of self.new.rooms m }
        ensures spare_grows { self.old.spare ≤ self.new.spare }
        ensures enough { n ≤ capacity_of self.old.rooms key - number_of R.key_of key self.old.items → n ≤ self.old.spare → IsOk result }
    {
        self.slots.reserve(key, n)?;
        self.marks.reserve(n)?;
        Ok(())
    }

    /// Gives an offering a slot, with no room, where there is none: so offerings that come in rising order stand behind one
    /// another. Where memory runs out, nothing is changed.
    pub fn add_slot(&mut self, key: u32) -> Result<(), Memory>
        ensures items { self.new.items ≡ self.old.items }
        ensures rooms { (m : ℕ) → capacity_of self.old.rooms m ≤ capacity_of self.new.rooms m }
        ensures spare { self.new.spare ≡ self.old.spare }
    {
        self.slots.add_slot(key)
    }

    /// Puts a row behind the others of its offering. Where memory runs out, the rows are as before.
    pub fn insert(&mut self, row: R) -> Result<(), Memory>
        requires { IsNone (find (λ r. R.id_of r == R.id_of row) self.old.items) }
        ensures ok { OnOk result (self.new.items ≡ put_behind R.key_of row self.old.items) }
        ensures err { OnErr result (self.new.items ≡ self.old.items) }
        ensures rooms { (m : ℕ) → capacity_of self.old.rooms m ≤ capacity_of self.new.rooms m }
        ensures spare { self.old.spare ≤ self.new.spare + 1 }
        ensures grows { OnErr result (self.old.spare ≤ self.new.spare) }
        ensures enough { number_of R.key_of (R.key_of row) self.old.items < capacity_of self.old.rooms (R.key_of row) → 0 < self.old.spare → IsOk result }
    {
        self.reserve(row.key(), 1)?;
        put_mark(&mut self.marks, mark_of(&row));
        self.slots.insert(row);
        Ok(())
    }

    /// Takes the row of an id out, and gives it back with its place among those of its offering. It takes no memory.
    pub fn remove(&mut self, id: u32) -> (usize, R)
        requires { IsSome (find (λ r. R.id_of r == id) self.old.items) }
        ensures row { Some result.1 ≡ find (λ r. R.id_of r == id) self.old.items }
        ensures id { R.id_of result.1 ≡ id }
        ensures place { Some result.0 ≡ position (λ r. R.id_of r == id) (rows_of R.key_of (R.key_of result.1) self.old.items) }
        ensures rest { self.new.items ≡ filter (λ r. not (R.id_of r == id)) self.old.items }
        ensures gone { IsNone (find (λ r. R.id_of r == id) self.new.items) }
        ensures back { self.old.items ≡ put_among R.key_of result.0 result.1 self.new.items }
        ensures within { result.0 ≤ number_of R.key_of (R.key_of result.1) self.new.items }
        ensures rooms { self.new.rooms ≡ self.old.rooms }
        ensures room { number_of R.key_of (R.key_of result.1) self.old.items ≤ capacity_of self.old.rooms (R.key_of result.1) }
        ensures spare { self.new.spare ≡ self.old.spare + 1 }
    {
        let offering = self.known_offering(id);
        let place = first_of(self.slots.rows_of(offering), id);
        take_mark(&mut self.marks, id);
        (place, self.slots.remove(offering, place))
    }

    /// Puts a row back where it stood among those of its offering. It takes no memory.
    pub fn put_back(&mut self, place: usize, row: R)
        requires room { number_of R.key_of (R.key_of row) self.old.items < capacity_of self.old.rooms (R.key_of row) }
        requires spare { 0 < self.old.spare }
        requires within { place ≤ number_of R.key_of (R.key_of row) self.old.items }
        requires absent { IsNone (find (λ r. R.id_of r == R.id_of row) self.old.items) }
        ensures items { self.new.items ≡ put_among R.key_of place row self.old.items }
        ensures rooms { self.new.rooms ≡ self.old.rooms }
        ensures spare { self.new.spare + 1 ≡ self.old.spare }
    {
        put_mark(&mut self.marks, mark_of(&row));
        self.slots.put_back(place, row);
    }

    /// The offering of an id, None exactly where it is unknown.
    fn offering(&self, id: u32) -> Option<u32>
        ensures { result ≡ option_map R.key_of (find (λ r. R.id_of r == id) self.now.items) }
    {
        offering_of(self.marks.as_slice(), id)
    }

    /// The offering of a known id.
    pub(crate) fn known_offering(&self, id: u32) -> u32
        requires { IsSome (find (λ r. R.id_of r == id) self.now.items) }
        ensures { Some result ≡ option_map R.key_of (find (λ r. R.id_of r == id) self.now.items) }
    {
        match self.offering(id) {
            Some(offering) => offering,
            None => unreachable!(),
        }
    }
}

/// The mark of a row.
fn mark_of<R: Filed>(row: &R) -> Mark
    ensures { result ≡ record { id = R.id_of row.now; offering = R.key_of row.now } }
{
    Mark {
        id: row.id(),
        offering: row.key(),
    }
}

/// The place of the first row of an id; the length where there is none.
pub fn first_of<R: Filed>(rows: &[R], id: u32) -> usize
    ensures { result ≡ position_or_len (λ r. R.id_of r == id) rows.now }
{
    let mut place = 0;
    while place < rows.len() && rows[place].id() != id {
        place += 1;
    }
    place
}
