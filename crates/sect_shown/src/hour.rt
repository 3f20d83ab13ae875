// A time at which a student is taught.

use sect_base::{CourseId, Meeting, SectionId};

/// A meeting of a section that a student attends, with the course by which it is held.
#[derive(Clone, Copy, PartialEq, Eq)]
pub struct Hour {
    pub course: CourseId,
    pub section: SectionId,
    pub meeting: Meeting,
}
