// Whether a student is enrolled in a course.

ghost use Rattle.std.specs.Prelude.{◌≡◌, ◌==◌};
ghost use Rattle.std.specs.List.{list_any};
ghost use Rattle.sect_model.specs.World.{holds as is_held};

use crate::world::World;
use sect_base::{CourseId, StudentId};
use sect_model::Enrolment;

impl World {
    /// Whether the student is enrolled in the course. It takes no memory.
    pub fn holds(&self, student: StudentId, course: CourseId) -> bool
        ensures { result ≡ is_held self.now.world student course }
    {
        has_course(self.enrolments(student), course)
    }
}

/// Whether one of the enrolments is in the course. It takes no memory.
pub fn has_course(enrolments: &[Enrolment], course: CourseId) -> bool
    ensures { result ≡ list_any (λ e. e.choice.course.0 == course.0) enrolments.now }
{
    enrolments
        .iter()
        .any(|enrolment| enrolment.choice.course == course)
}
