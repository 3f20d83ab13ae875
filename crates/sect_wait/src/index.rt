// The index of a queue: its tickets by the students who wait, and by the courses that they want.

ghost use Rattle.std.specs.Prelude.{◌≡◌, ◌==◌, true, cond, None as Nothing, Some as Told, OnOk, option_copied};
ghost use Rattle.sect_wait.specs.Indexed.{KeepsOtherTickets, KeepsOthersOwn, KeepsOwn, KeepsTickets, is_indexed, own_tickets, tickets_by};

use crate::by_student::ByStudent;
use crate::tickets::{note_courses, strike_courses, tickets_of};
use sect_base::{CourseId, Memory, StudentId};
use sect_model::Waiting;
use std::alloc::Global;
use std::collections::BTreeMap;

/// The tickets of each student's entries, and of those that want each course. It isn't whole once memory ran out as an
/// entry came back: then it may lack tickets.
pub(crate) struct Index {
    pub whole: bool,
    pub students: ByStudent,
    pub courses: BTreeMap<u32, Vec<u64>>,
    alloc: Global,
}

/// It is written out, so that a caller does not prove again how each part is dropped.
impl Drop for Index {
    fn drop(self) {
        let Index {
            whole: _,
            students: _,
            courses: _,
            alloc: _,
        } = self;
    }
}

impl Index {
    /// No tickets. It takes no memory.
    pub fn empty(alloc: Global) -> Index {
        Index {
            whole: true,
            students: ByStudent::empty(alloc),
            courses: BTreeMap::new(alloc),
            alloc,
        }
    }

    /// The tickets of a student's entries. None where they aren't known. It takes no memory.
    pub fn of_student(&self, student: StudentId) -> Option<&[u64]>
        ensures { option_copied result ≡ cond self.now.whole (Told (own_tickets self.now.students student.0)) Nothing }
    {
        if self.whole {
            Some(self.students.get(student))
        } else {
            None
        }
    }

    /// The tickets of the entries that want a course. None where they aren't known. It takes no memory.
    pub fn of_course(&self, course: CourseId) -> Option<&[u64]>
        ensures { option_copied result ≡ cond self.now.whole (Told (tickets_by self.now.courses course.0)) Nothing }
    {
        if self.whole {
            Some(tickets_of(&self.courses, course.0))
        } else {
            None
        }
    }

    /// Notes an entry. Where memory runs out, its ticket stands in some of its places.
    pub fn note(&mut self, entry: &Waiting) -> Result<(), Memory>
        ensures noted { OnOk result (is_indexed self.new entry.now ≡ true) }
        ensures students { KeepsOwn self.old.students self.new.students }
        ensures courses { KeepsTickets self.old.courses self.new.courses }
        ensures whole { self.new.whole ≡ self.old.whole }
    {
        self.students.note(self.alloc, entry.student, entry.ticket)?;
        note_courses(
            self.alloc,
            &mut self.courses,
            entry.want.courses.as_slice(),
            entry.ticket,
        )
    }

    /// Notes an entry that comes back. Where memory runs out, the index isn't whole. The room that the entry left is
    /// enough, so it doesn't.
    pub fn note_again(&mut self, entry: &Waiting)
        ensures noted { self.new.whole ≡ true → is_indexed self.new entry.now ≡ true }
        ensures students { KeepsOwn self.old.students self.new.students }
        ensures courses { KeepsTickets self.old.courses self.new.courses }
        ensures whole { self.new.whole ≡ true → self.old.whole ≡ true }
    {
        if self.note(entry).is_err() {
            self.whole = false;
        }
    }

    /// Takes an entry's ticket away. It takes no memory, and the room stays.
    pub fn strike(&mut self, entry: &Waiting)
        ensures students { KeepsOthersOwn entry.now.ticket self.old.students self.new.students }
        ensures courses { KeepsOtherTickets entry.now.ticket self.old.courses self.new.courses }
        ensures whole { self.new.whole ≡ self.old.whole }
    {
        self.students.strike(entry.student, entry.ticket);
        strike_courses(
            &mut self.courses,
            entry.want.courses.as_slice(),
            entry.ticket,
        );
    }
}
