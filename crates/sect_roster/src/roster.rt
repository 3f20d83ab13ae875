// The enrolments of all students.

ghost use Rattle.std.specs.Prelude.{
  ◌≡◌,
  ◌==◌,
  ◌<◌,
  ◌≤◌,
  ◌-◌,
  ℕ,
  not,
  [],
  length,
  filter,
  find,
  position,
  Some,
  IfOk,
  IsOk,
  IsTrue,
  OnOk,
  OnErr,
};
ghost use Rattle.std.specs.List.{list_any, position_or_len};
ghost use Rattle.sect_model.specs.World.{insert_enrolment, is_in};
ghost use Rattle.sect_model.specs.Kept.{is_ordered};
ghost use Rattle.sect_roster.specs.Last.{last_of, drop_last_of};
ghost use Rattle.sect_roster.specs.Slots.{capacity_of};
ghost use Rattle.sect_roster.specs.Rostered.{of_student, number_held, put_among};

use crate::Slots;
use sect_base::{CourseId, Memory, StudentId};
use sect_model::Enrolment;
use std::alloc::Global;
use std::marker::Model;

/// The enrolments in order of student, and for one student in the order in which they were made. They are seen as that
/// list, with the room that each student has. No call walks the enrolments of others, but for `list`.
pub struct Roster {
    slots: Slots<Enrolment>,
}

/// It is written out, so that a caller does not prove again how each part is dropped.
impl Drop for Roster {
    fn drop(self) {
        let Roster { slots: _ } = self;
    }
}

impl Model for Roster {
    ghost use Rattle.sect_model.specs.declared.held.Enrolment.{Enrolment as Held};
    ghost use Rattle.sect_roster.specs.Slots.{InSlots};

    ghost Value = { InSlots Held };

    ghost view = { λ r. r.slots };
}

impl Roster {
    /// No enrolments. It takes no memory.
    pub fn empty(alloc: Global) -> Roster
        ensures { result ≡ record { items = []; rooms = [] } }
    {
        Roster {
            slots: Slots::empty(alloc),
        }
    }

    /// The enrolments of a student, the earliest first. It takes no memory.
    pub fn of_student(&self, student: StudentId) -> &[Enrolment]
        ensures { result.now ≡ of_student student.0 self.now.items }
    {
        self.slots.rows_of(student.0)
    }

    /// All enrolments, in order of student.
    pub fn list(&self, alloc: Global) -> Result<Vec<Enrolment>, Memory>
        ensures { IfOk result (λ es. (es.items ≡ self.now.items) × IsTrue (is_ordered es.items)) }
    {
        self.slots.recall_order();
        self.slots.list(alloc)
    }

    /// Makes room for `n` enrolments more of a student. Where memory runs out, there is as much room as before.
    pub fn reserve(&mut self, student: StudentId, n: usize) -> Result<(), Memory>
        ensures items { self.new.items ≡ self.old.items }
        ensures room { OnOk result (n ≤ capacity_of self.new.rooms student.0 - number_held student.0 self.old.items) }
        ensures grows { (m : ℕ) → capacity_of self.old.rooms m ≤ capacity_of self.new.rooms m }
        ensures enough { n ≤ capacity_of self.old.rooms student.0 - number_held student.0 self.old.items → IsOk result }
    {
        self.slots.reserve(student.0, n)
    }

    /// Gives a student a slot, with no room, where there is none: so students who come in order of id stand behind one
    /// another. Where memory runs out, nothing is changed.
    pub fn add_slot(&mut self, student: StudentId) -> Result<(), Memory>
        ensures items { self.new.items ≡ self.old.items }
        ensures grows { (m : ℕ) → capacity_of self.old.rooms m ≤ capacity_of self.new.rooms m }
    {
        self.slots.add_slot(student.0)
    }

    /// Puts the enrolment behind the others of its student. Where memory runs out, the enrolments are as before; it takes none where
    /// there is room.
    pub fn push(&mut self, enrolment: Enrolment) -> Result<(), Memory>
        ensures ok { OnOk result (self.new.items ≡ insert_enrolment enrolment self.old.items) }
        ensures err { OnErr result (self.new.items ≡ self.old.items) }
        ensures grows { (m : ℕ) → capacity_of self.old.rooms m ≤ capacity_of self.new.rooms m }
        ensures enough { number_held enrolment.student.0 self.old.items < capacity_of self.old.rooms enrolment.student.0 → IsOk result }
    {
        self.slots.push(enrolment)
    }

    /// Takes the student's enrolment in the course out, and gives it back with its place among those of the student. It
    /// takes no memory.
    pub fn remove(&mut self, student: StudentId, course: CourseId) -> (usize, Enrolment)
        requires { length (filter (is_in student course) self.old.items) ≡ 1 }
        ensures enrolment { Some result.1 ≡ find (is_in student course) self.old.items }
        ensures place { Some result.0 ≡ position (is_in student course) (of_student student.0 self.old.items) }
        ensures rest { self.new ≡ record self.old { items = filter (λ e. not (is_in student course e)) self.old.items } }
        ensures back { self.old.items ≡ put_among result.0 result.1 self.new.items }
        ensures within { result.0 ≤ number_held student.0 self.new.items }
        ensures room { number_held student.0 self.old.items ≤ capacity_of self.old.rooms student.0 }
    {
        let place = place_of(self.slots.rows_of(student.0), student, course);
        (place, self.slots.remove(student.0, place))
    }

    /// Puts an enrolment back where it stood among those of its student. It takes no memory.
    pub fn put_back(&mut self, place: usize, enrolment: Enrolment)
        requires room { number_held enrolment.student.0 self.old.items < capacity_of self.old.rooms enrolment.student.0 }
        requires within { place ≤ number_held enrolment.student.0 self.old.items }
        ensures { self.new ≡ record self.old { items = put_among place enrolment self.old.items } }
    {
        self.slots.put_back(place, enrolment);
    }

    /// Takes the student's last enrolment out. It takes no memory.
    pub fn remove_last_of(&mut self, student: StudentId) -> Enrolment
        requires { IsTrue (list_any (λ e. e.student.0 == student.0) self.old.items) }
        ensures enrolment { Some result ≡ last_of student self.old.items }
        ensures student { result.student ≡ student }
        ensures rest { self.new ≡ record self.old { items = drop_last_of student self.old.items } }
        ensures back { self.old.items ≡ insert_enrolment result self.new.items }
        ensures room { number_held student.0 self.old.items ≤ capacity_of self.old.rooms student.0 }
    {
        let count = self.slots.rows_of(student.0).len();
        let enrolment = self.slots.remove(student.0, count - 1);
        self.slots.recall_order();
        enrolment
    }
}

/// Where the first enrolment of the student in the course stands; the length where there is none.
fn place_of(enrolments: &[Enrolment], student: StudentId, course: CourseId) -> usize
    ensures { result ≡ position_or_len (is_in student course) enrolments.now }
{
    let mut place = 0;
    while place < enrolments.len() && !is_in(&enrolments[place], student, course) {
        place += 1;
    }
    place
}

/// Whether the enrolment is the student's in the course.
fn is_in(enrolment: &Enrolment, student: StudentId, course: CourseId) -> bool
    ensures { result ≡ is_in student course enrolment.now }
{
    enrolment.student == student && enrolment.choice.course == course
}
