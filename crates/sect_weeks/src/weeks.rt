// The calendar and the credits of each student.

ghost use Rattle.std.specs.Prelude.{◌≡◌, true, OnOk, option_copied};
ghost use Rattle.sect_model.specs.World.{World, empty_world};
ghost use Rattle.sect_model.specs.Allowed.{credits_held};
ghost use Rattle.sect_weeks.specs.Busy.{ToldWeeks};
ghost use Rattle.sect_weeks.specs.Rows.{calendar_of, credits_at, row_of, place_of, has_row, Puts, Keeps};

use sect_base::{Calendar, Memory, StudentId, Table};
use std::alloc::Global;

/// The calendar of a student, and the credits of what the student holds.
#[derive(Clone, Copy)]
pub(crate) struct Row {
    pub(crate) student: StudentId,
    pub(crate) calendar: Calendar,
    pub(crate) credits: usize,
}

/// The calendars and credits of students. The rows stand in the order of their coming; each names its student, and a look-up tests it,
/// so that nothing need be kept of the table.
pub struct Weeks {
    places: Table<usize>,
    pub(crate) rows: Vec<Row>,
}

/// It is written out, so that a caller does not prove again how each part is dropped.
impl Drop for Weeks {
    fn drop(self) {
        let Weeks { places: _, rows: _ } = self;
    }
}

impl Weeks {
    /// No calendars, as in a world of no rows. It takes no memory.
    pub fn empty(alloc: Global) -> Weeks
        ensures { ToldWeeks result empty_world }
    {
        Weeks {
            places: Table::empty(alloc),
            rows: Vec::new(alloc),
        }
    }

    /// The calendar of a student. None where there is none. It takes no memory.
    pub fn get(&self, student: StudentId) -> Option<&Calendar>
        ensures { option_copied result ≡ calendar_of self.now student.0 }
    {
        let place = self.place(student)?;
        Some(&self.rows[place].calendar)
    }

    /// The credits of what a student holds, 0 where there is no calendar. It takes no memory.
    pub fn credits(&self, student: StudentId) -> usize
        ensures value { result ≡ credits_at self.now student.0 }
        ensures told { (w : World) → ToldWeeks self.now w → result ≡ credits_held w student }
    {
        match self.place(student) {
            Some(place) => self.rows[place].credits,
            None => 0,
        }
    }

    /// Gives a student an empty calendar, where there is none. Where memory runs out, the calendars stay.
    pub(crate) fn add_row(&mut self, student: StudentId) -> Result<(), Memory>
        ensures keeps { Keeps self.old self.new }
        ensures ok { OnOk result (has_row self.new student.0 ≡ true) }
    {
        if self.place(student).is_some() {
            return Ok(());
        }
        let place = self.rows.len();
        self.rows.push(Row {
            student,
            calendar: Calendar::empty(),
            credits: 0,
        })?;
        self.places.put(student.0, place)?;
        Ok(())
    }

    /// Puts a calendar and credits in place of the student's. It takes no memory.
    pub(crate) fn put(&mut self, student: StudentId, calendar: Calendar, credits: usize)
        requires { has_row self.old student.0 ≡ true }
        ensures { Puts self.old self.new student.0 calendar credits }
    {
        if let Some(place) = self.place(student) {
            self.rows[place] = Row {
                student,
                calendar,
                credits,
            };
        }
    }

    /// The place of a student's row, if it has one.
    #[inline(always)]
    pub(crate) fn place(&self, student: StudentId) -> Option<usize>
        ensures { result ≡ place_of self.now student.0 }
    {
        let place = self.places.get(student.0)?;
        let row = self.rows.get(place)?;
        if row.student == student {
            Some(place)
        } else {
            None
        }
    }
}
