// Calendars and credits after an enrolment is made or taken away.

ghost use Rattle.std.specs.Prelude.{◌≡◌, ◌*◌, ◌≤◌, true, length};
ghost use Rattle.sect_weeks.specs.Rows.{has_row, credits_at};
ghost use Rattle.sect_weeks.specs.Enrolled.{TakesChoice, TakesMore, TakesAnew};

use crate::calendar::{add_sections, calendar_of};
use crate::credits::{credits, credits_in};
use crate::weeks::{Row, Weeks};
use sect_base::{Choice, StudentId};
use sect_catalog::Catalogue;
use sect_model::Enrolment;

impl Weeks {
    /// Takes the slots of an enrolment that was made, and counts its credits. Its student has a calendar. It takes no memory.
    pub fn enrolled(&mut self, catalogue: &Catalogue, enrolment: &Enrolment)
        requires row { has_row self.old enrolment.now.student.0 ≡ true }
        requires bound { credits_at self.old enrolment.now.student.0 ≤ 255 * 1000000000 }
        ensures { TakesMore self.old self.new catalogue.now.rows enrolment.now }
    {
        if let Some(place) = self.place(enrolment.student) {
            self.rows[place].take(catalogue, &enrolment.choice);
        }
    }

    /// Makes the calendar of a student whom an enrolment left again, from those that are still held, and counts their
    /// credits. The student has a calendar. It takes no memory.
    pub fn left(&mut self, catalogue: &Catalogue, student: StudentId, held: &[Enrolment])
        requires row { has_row self.old student.0 ≡ true }
        requires bound { length held.now ≤ 1000000000 }
        ensures { TakesAnew self.old self.new catalogue.now.rows student.0 held.now }
    {
        let calendar = calendar_of(catalogue, held);
        self.put(student, calendar, credits_in(catalogue, held));
    }
}

impl Row {
    /// Takes the slots of the sections of a choice, and counts its credits.
    fn take(&mut self, catalogue: &Catalogue, choice: &Choice)
        requires { self.old.credits ≤ 255 * 1000000000 }
        ensures { TakesChoice self.old self.new catalogue.now.rows choice.now }
    {
        add_sections(&mut self.calendar, catalogue, choice.sections.as_slice());
        self.credits += usize::from(credits(catalogue, choice.course));
    }
}
