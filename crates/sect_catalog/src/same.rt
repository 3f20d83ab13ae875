// Whether two rows are equal.

ghost use Rattle.std.specs.Prelude.{◌≡◌, ◌↔◌, IsTrue};

use crate::row::{ConfigRow, CourseRow, OfferingRow, SectionRow, SubpartRow};
use sect_base::{Meeting, Same};

/// Whether the meetings are equal, in one order.
fn same_meetings(left: &[Meeting], right: &[Meeting]) -> bool
    ensures { IsTrue result ↔ (left.now ≡ right.now) }
{
    if left.len() != right.len() {
        return false;
    }
    for at in 0..left.len() {
        if left[at] != right[at] {
            return false;
        }
    }
    true
}

impl Same for CourseRow {
    fn same(&self, other: &Self) -> bool {
        *self == *other
    }
}

impl Same for SectionRow {
    fn same(&self, other: &Self) -> bool {
        self.id == other.id
            && self.limit == other.limit
            && self.parent == other.parent
            && same_meetings(self.meetings.as_slice(), other.meetings.as_slice())
    }
}

impl Same for SubpartRow {
    fn same(&self, other: &Self) -> bool {
        self.id == other.id && self.sections.same(&other.sections)
    }
}

impl Same for ConfigRow {
    fn same(&self, other: &Self) -> bool {
        self.id == other.id && self.limit == other.limit && self.subparts.same(&other.subparts)
    }
}

impl Same for OfferingRow {
    fn same(&self, other: &Self) -> bool {
        self.id == other.id
            && self.courses.same(&other.courses)
            && self.configs.same(&other.configs)
    }
}
