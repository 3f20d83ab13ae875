// The undo: what is kept of changes, in the order in which they were made.

ghost use Rattle.std.specs.Prelude.{◌≡◌, ◌<◌, ◌≤◌, ◌+◌, ◌++◌, ◌∷◌, [], length, slice_get, Some, IsOk, OnOk, IsTrue, ◌↔◌};
ghost use Rattle.std.specs.Option.{option_map};
ghost use Rattle.sect_space.specs.Back.{mark_of};

use crate::back::{Back, Mark};
use sect_base::{Day, Memory, OfferingId, StudentId};
use std::alloc::Global;
use std::marker::Model;

/// What is kept of changes so that they can be taken back, the last one first. Contracts see it as that list, with its room.
pub struct Undo {
    backs: Vec<Back>,
}

/// It is written out, so that a caller does not prove again how each part is dropped.
impl Drop for Undo {
    fn drop(self) {
        let Undo { backs: _ } = self;
    }
}

impl Model for Undo {
    ghost use Rattle.std.specs.Prelude.{◌-◌};
    ghost use Rattle.std.specs.Vec.{vec_len, vec_capacity};
    ghost use Rattle.sect_space.specs.Recorded.{Recorded};

    ghost Value = { Recorded };

    ghost view = { λ u. record { backs = u.backs.items; spare = vec_capacity u.backs - vec_len u.backs } };
}

impl Undo {
    /// No changes. It takes no memory.
    pub fn empty(alloc: Global) -> Undo
        ensures { result.backs ≡ [] }
    {
        Undo {
            backs: Vec::new(alloc),
        }
    }

    /// Forgets the changes, and keeps their room. It takes no memory.
    pub fn clear(&mut self)
        ensures backs { self.new.backs ≡ [] }
        ensures spare { self.new.spare ≡ self.old.spare + length self.old.backs }
    {
        self.backs.clear();
    }

    /// How many changes are recorded. It takes no memory.
    pub fn len(&self) -> usize
        ensures { result ≡ length self.now.backs }
    {
        self.backs.len()
    }

    /// Whether no change is recorded. It takes no memory.
    pub fn is_empty(&self) -> bool
        ensures { IsTrue result ↔ (self.now.backs ≡ []) }
    {
        self.backs.is_empty()
    }

    /// What a recorded change concerns, the first one being number 0. It takes no memory.
    pub fn mark(&self, i: usize) -> Mark
        requires { i < length self.now.backs }
        ensures { Some result ≡ option_map mark_of (slice_get self.now.backs i) }
    {
        match self.backs.get(i) {
            Some(back) => mark(back),
            None => unreachable!(),
        }
    }

    /// Makes room for so many changes more. The changes stay.
    pub fn reserve(&mut self, n: usize) -> Result<(), Memory>
        ensures backs { self.new.backs ≡ self.old.backs }
        ensures room { OnOk result (n ≤ self.new.spare) }
        ensures grows { self.old.spare ≤ self.new.spare }
        ensures enough { n ≤ self.old.spare → IsOk result }
    {
        self.backs.reserve(n)?;
        Ok(())
    }

    /// Records a change, where there is room. It takes no memory.
    pub fn push(&mut self, back: Back)
        requires { 0 < self.old.spare }
        ensures backs { self.new.backs ≡ self.old.backs ++ back ∷ [] }
        ensures spare { self.new.spare + 1 ≡ self.old.spare }
    {
        self.backs.push_reserved(back);
    }

    /// Takes the last recorded change out. There is one. It takes no memory.
    pub fn pop(&mut self) -> Back
        requires { 0 < length self.old.backs }
        ensures backs { self.old.backs ≡ self.new.backs ++ result ∷ [] }
        ensures spare { self.new.spare ≡ self.old.spare + 1 }
    {
        match self.backs.pop() {
            Some(back) => back,
            None => unreachable!(),
        }
    }
}

/// What a change concerns.
fn mark(back: &Back) -> Mark
    ensures { result ≡ mark_of back.now }
{
    match back {
        Back::OfferingAdded(id) => of_offering(Some(*id)),
        Back::StudentAdded(id) => of_student(*id),
        Back::StudentReplaced(row) => of_student(row.id),
        Back::RequestsReplaced(student, _) => of_student(*student),
        Back::ReservationAdded(_, offering) => of_offering(Some(*offering)),
        Back::ReservationRemoved(_, row) => of_offering(Some(row.offering)),
        Back::ExpiryReplaced(_, offering, _) => of_offering(*offering),
        Back::RestrictionAdded(_, offering) => of_offering(Some(*offering)),
        Back::RestrictionRemoved(_, row) => of_offering(Some(row.offering)),
        Back::LimitReplaced(_, offering, _) => of_offering(*offering),
        Back::SectionCancelled(_, offering) => of_offering(*offering),
        Back::DayReplaced(old, new) => of_days(*old, *new),
        Back::Enrolled(student, offering) => of_both(*student, *offering),
        Back::Left(_, enrolment, offering) => of_both(enrolment.student, *offering),
    }
}

/// The mark of a change that concerns a student alone.
fn of_student(student: StudentId) -> Mark
    ensures { result ≡ record { student = Some student; offering = None; days = None } }
{
    Mark {
        student: Some(student),
        offering: None,
        days: None,
    }
}

/// The mark of a change that concerns an offering alone, or nothing where there is none.
fn of_offering(offering: Option<OfferingId>) -> Mark
    ensures { result ≡ record { student = None; offering = offering; days = None } }
{
    Mark {
        student: None,
        offering,
        days: None,
    }
}

/// The mark of a change that concerns a student, and an offering where there is one.
fn of_both(student: StudentId, offering: Option<OfferingId>) -> Mark
    ensures { result ≡ record { student = Some student; offering = offering; days = None } }
{
    Mark {
        student: Some(student),
        offering,
        days: None,
    }
}

/// The mark of a change from the old day to the new one.
fn of_days(old: Day, new: Day) -> Mark
    ensures { result ≡ record { student = None; offering = None; days = Some (old, new) } }
{
    Mark {
        student: None,
        offering: None,
        days: Some((old, new)),
    }
}
