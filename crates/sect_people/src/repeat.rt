// The first course that stands a second time in requests.

ghost use Rattle.std.specs.Prelude.{◌≡◌, ◌==◌, ◌++◌, []};
ghost use Rattle.std.specs.List.{list_any};
ghost use Rattle.std.specs.Option.{option_map};
ghost use Rattle.sect_people.specs.Fault.{courses_of_all, lists_course, repeated_after};

use crate::check::courses;
use crate::row::Ask;
use sect_base::CourseId;

/// The first course that stands a second time, in one request or in two.
pub fn first_repeat(asks: &[Ask]) -> Option<CourseId>
    ensures { option_map (λ c. c.0) result ≡ repeated_after [] (courses_of_all asks.now) }
{
    for place in 0..asks.len() {
        if let Some(course) = repeat_in(&asks[..place], courses(&asks[place])) {
            return Some(course);
        }
    }
    None
}

/// The first of the courses that stands in the earlier requests or before itself.
fn repeat_in(earlier: &[Ask], courses: &[CourseId]) -> Option<CourseId>
    ensures { option_map (λ c. c.0) result ≡ repeated_after (courses_of_all earlier.now) courses.now }
{
    for place in 0..courses.len() {
        let course = courses[place];
        if stands_before(earlier, &courses[..place], course) {
            return Some(course);
        }
    }
    None
}

/// Whether the course stands in the earlier requests, or before its place in its own.
fn stands_before(earlier: &[Ask], before: &[CourseId], course: CourseId) -> bool
    ensures { result ≡ list_any (λ e. e.0 == course.0) (before.now ++ courses_of_all earlier.now) }
{
    before.contains(&course) || stands_in(earlier, course)
}

/// Whether one of the requests lists the course.
fn stands_in(asks: &[Ask], course: CourseId) -> bool
    ensures { result ≡ list_any (lists_course course) asks.now }
{
    asks.iter().any(|ask| lists(ask, course))
}

/// Whether the request lists the course.
fn lists(ask: &Ask, course: CourseId) -> bool
    ensures { result ≡ lists_course course ask.now }
{
    courses(ask).iter().any(|other| *other == course)
}
