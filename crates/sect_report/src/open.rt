// The report on the places of an offering.

ghost use Rattle.sect_report.specs.Report.{config_text, course_text, open_text, section_text};

use crate::line::{Word, print_line};
use crate::printed::{Printed, print_each, print_under};
use sect_base::Memory;
use sect_command::{OpenConfig, OpenCourse, OpenSection, OpenView};

impl Printed for OpenCourse {
    ghost lines = { course_text };

    fn print(&self, into: &mut Vec<u8>) -> Result<(), Memory> {
        let words = [
            Word::Name("course"),
            Word::Number(u64::from(self.course.0)),
            Word::Name("limit"),
            Word::Places(self.limit),
            Word::Name("held"),
            Word::Number(u64::from(self.held)),
        ];
        print_line(&words, into)
    }
}

impl Printed for OpenSection {
    ghost lines = { section_text };

    fn print(&self, into: &mut Vec<u8>) -> Result<(), Memory> {
        let words = [
            Word::Name("section"),
            Word::Number(u64::from(self.section.0)),
            Word::Name("limit"),
            Word::Places(self.limit),
            Word::Name("held"),
            Word::Number(u64::from(self.held)),
            Word::Name("free"),
            Word::Space(self.free),
            Word::Name("cancelled"),
        ];
        if self.cancelled {
            print_line(&words, into)
        } else {
            print_line(&words[..8], into)
        }
    }
}

impl Printed for OpenConfig {
    ghost lines = { config_text };

    fn print(&self, into: &mut Vec<u8>) -> Result<(), Memory> {
        let words = [
            Word::Name("config"),
            Word::Number(u64::from(self.config.0)),
            Word::Name("limit"),
            Word::Places(self.limit),
            Word::Name("held"),
            Word::Number(u64::from(self.held)),
            Word::Name("free"),
            Word::Space(self.free),
        ];
        print_under(&words, self.sections.as_slice(), into)
    }
}

impl Printed for OpenView {
    ghost lines = { open_text };

    fn print(&self, into: &mut Vec<u8>) -> Result<(), Memory> {
        let before = into.len();
        let words = [
            Word::Name("offering"),
            Word::Number(u64::from(self.offering.0)),
            Word::Name("limit"),
            Word::Optional(self.limit),
            Word::Name("held"),
            Word::Number(u64::from(self.held)),
            Word::Name("free"),
            Word::Space(self.free),
        ];
        print_under(&words, self.courses.as_slice(), into)?;
        let printed = print_each(self.configs.as_slice(), into);
        if printed.is_err() {
            into.truncate(before);
        }
        printed
    }
}
