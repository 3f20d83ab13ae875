// Courses that a student holds or gives up.

ghost use Rattle.std.specs.Prelude.{◌≡◌, ◌==◌, ◌||◌, not, []};
ghost use Rattle.std.specs.List.{list_any};
ghost use Rattle.sect_model.specs.World.{holds as is_held};
ghost use Rattle.sect_model.specs.Refusals.{not_enrolled as held_fault, not_enrolled_in as given_fault};

use sect_base::{CourseId, StudentId};
use sect_command::Refusal;
use sect_space::World;

/// The student doesn't hold the course.
pub fn not_enrolled(world: &World, student: StudentId, course: CourseId) -> Option<Refusal>
    ensures { result ≡ held_fault world.now.world student course }
{
    if world.holds(student, course) {
        None
    } else {
        Some(Refusal::NotEnrolled(course))
    }
}

/// The first course given that isn't held or was named before.
pub fn not_enrolled_in(world: &World, student: StudentId, given: &[CourseId]) -> Option<Refusal>
    ensures { result ≡ given_fault world.now.world student [] given.now }
{
    for place in 0..given.len() {
        let course = given[place];
        if is_wrong(world, student, &given[..place], course) {
            return Some(Refusal::NotEnrolled(course));
        }
    }
    None
}

/// Whether the course isn't held, or is among the earlier ones.
fn is_wrong(world: &World, student: StudentId, earlier: &[CourseId], course: CourseId) -> bool
    ensures { result ≡ not (is_held world.now.world student course) || list_any (λ e. e.0 == course.0) earlier.now }
{
    !world.holds(student, course) || earlier.contains(&course)
}
