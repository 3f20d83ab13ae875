// Whether two rows or requests are equal.

use crate::row::{Ask, CourseAsk, StudentRow};
use sect_base::Same;

impl Same for StudentRow {
    fn same(&self, other: &Self) -> bool {
        self.id == other.id
            && self.max_credits == other.max_credits
            && self.groups.same(&other.groups)
            && self.curricula.same(&other.curricula)
    }
}

impl Same for CourseAsk {
    fn same(&self, other: &Self) -> bool {
        self.wait == other.wait
            && self.substitute == other.substitute
            && self.courses.same(&other.courses)
    }
}

impl Same for Ask {
    fn same(&self, other: &Self) -> bool {
        match self {
            Ask::Course(ask) => matches!(other, Ask::Course(others) if ask.same(others)),
            Ask::Free(meeting) => matches!(other, Ask::Free(others) if *meeting == *others),
        }
    }
}
