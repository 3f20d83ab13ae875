// The reports on students: rolls, schedules, the wait-list and unmet requests.

ghost use Rattle.sect_report.specs.Report.{choice_text, held_text, roll_text, schedule_text, unmet_text, wait_text};

use crate::line::{Word, print_line};
use crate::printed::{Printed, print_under};
use sect_base::{Choice, Memory};
use sect_command::{HeldView, RollView, ScheduleView, UnmetView, WaitView};

impl Printed for HeldView {
    ghost lines = { held_text };

    fn print(&self, into: &mut Vec<u8>) -> Result<(), Memory> {
        let words = [
            Word::Name("student"),
            Word::Number(u64::from(self.student.0)),
            Word::Name("course"),
            Word::Number(u64::from(self.course.0)),
            Word::Name("reservation"),
            Word::Optional(self.reservation.map(|id| u64::from(id.0))),
        ];
        print_line(&words, into)
    }
}

impl Printed for RollView {
    ghost lines = { roll_text };

    fn print(&self, into: &mut Vec<u8>) -> Result<(), Memory> {
        let words = [
            Word::Name("section"),
            Word::Number(u64::from(self.section.0)),
            Word::Name("limit"),
            Word::Places(self.limit),
            Word::Name("held"),
            Word::Number(self.held.len() as u64),
        ];
        print_under(&words, self.held.as_slice(), into)
    }
}

impl Printed for Choice {
    ghost lines = { choice_text };

    fn print(&self, into: &mut Vec<u8>) -> Result<(), Memory> {
        let words = [
            Word::Name("course"),
            Word::Number(u64::from(self.course.0)),
            Word::Name("reservation"),
            Word::Optional(self.reservation.map(|id| u64::from(id.0))),
            Word::Name("config"),
            Word::Number(u64::from(self.config.0)),
            Word::Name("sections"),
            Word::Sections(self.sections.as_slice()),
        ];
        print_line(&words, into)
    }
}

impl Printed for ScheduleView {
    ghost lines = { schedule_text };

    fn print(&self, into: &mut Vec<u8>) -> Result<(), Memory> {
        let words = [
            Word::Name("student"),
            Word::Number(u64::from(self.student.0)),
            Word::Name("credits"),
            Word::Number(u64::from(self.credits)),
            Word::Name("max"),
            Word::Number(u64::from(self.max)),
        ];
        print_under(&words, self.held.as_slice(), into)
    }
}

impl Printed for WaitView {
    ghost lines = { wait_text };

    fn print(&self, into: &mut Vec<u8>) -> Result<(), Memory> {
        let words = [
            Word::Name("ticket"),
            Word::Number(self.ticket),
            Word::Name("student"),
            Word::Number(u64::from(self.student.0)),
            Word::Name("courses"),
            Word::Courses(self.courses.as_slice()),
            Word::Name("give"),
            Word::Optional(self.give.map(|id| u64::from(id.0))),
        ];
        print_line(&words, into)
    }
}

impl Printed for UnmetView {
    ghost lines = { unmet_text };

    fn print(&self, into: &mut Vec<u8>) -> Result<(), Memory> {
        let words = [
            Word::Name("student"),
            Word::Number(u64::from(self.student.0)),
            Word::Name("rank"),
            Word::Number(u64::from(self.rank)),
            Word::Name("courses"),
            Word::Courses(self.courses.as_slice()),
        ];
        print_line(&words, into)
    }
}
