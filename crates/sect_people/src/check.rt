// The check of requests.

ghost use Rattle.std.specs.Prelude.{◌≡◌, nat_lt, length, find};
ghost use Rattle.std.specs.Bool.{then_some};
ghost use Rattle.std.specs.List.Sorted.{IsNonDecreasingBy};
ghost use Rattle.std.specs.Option.{option_or};
ghost use Rattle.std.specs.Result.{result_err};
ghost use Rattle.sect_people.specs.Fault.{
  courses_of,
  courses_of_all,
  is_unknown,
  bad_length as length_fault,
  first_bad_length as first_length_fault,
  fault_of,
};

use crate::rank::is_known;
use crate::repeat::first_repeat;
use crate::row::{Ask, RequestFault};
use sect_base::{CourseId, capped};

/// The first fault, in the order of the faults: a course that isn't among those known, which
/// stand in rising order; a course that stands a second time in the requests; more than 20
/// requests; a request with more than 6 courses or none. It takes no memory.
pub fn check_asks(asks: &[Ask], known: &[CourseId]) -> Result<(), RequestFault>
    requires { IsNonDecreasingBy (λ c. c.0) known.now }
    ensures { result_err result ≡ fault_of asks.now known.now }
{
    if let Some(course) = first_unknown(asks, known) {
        return Err(RequestFault::UnknownCourse(course.0));
    }
    if let Some(course) = first_repeat(asks) {
        return Err(RequestFault::Twice(course.0));
    }
    match wrong_count(asks) {
        Some(count) => Err(RequestFault::TooMany(capped(count))),
        None => Ok(()),
    }
}

/// The courses of a request, none of a free time.
pub fn courses(ask: &Ask) -> &[CourseId]
    ensures { result.now ≡ courses_of ask.now }
{
    match ask {
        Ask::Course(ask) => ask.courses.as_slice(),
        Ask::Free(_) => &[],
    }
}

/// The requests' first course that isn't known. The known ones are in order.
fn first_unknown(asks: &[Ask], known: &[CourseId]) -> Option<CourseId>
    requires { IsNonDecreasingBy (λ c. c.0) known.now }
    ensures { result ≡ find (is_unknown known.now) (courses_of_all asks.now) }
{
    for ask in asks {
        if let Some(course) = unknown_among(courses(ask), known) {
            return Some(course);
        }
    }
    None
}

/// The first of the courses that isn't known. The known ones are in order.
fn unknown_among(courses: &[CourseId], known: &[CourseId]) -> Option<CourseId>
    requires { IsNonDecreasingBy (λ c. c.0) known.now }
    ensures { result ≡ find (is_unknown known.now) courses.now }
{
    for course in courses {
        if !is_known(known, *course) {
            return Some(*course);
        }
    }
    None
}

/// The number of requests where it is above 20, else the first number of courses that isn't 1 to 6.
fn wrong_count(asks: &[Ask]) -> Option<usize>
    ensures { result ≡ option_or (then_some (nat_lt 20 (length asks.now)) (length asks.now)) (first_length_fault asks.now) }
{
    if asks.len() > 20 {
        Some(asks.len())
    } else {
        first_bad_length(asks)
    }
}

/// The number of courses of the first request that lists none or too many.
fn first_bad_length(asks: &[Ask]) -> Option<usize>
    ensures { result ≡ first_length_fault asks.now }
{
    for ask in asks {
        if let Some(count) = bad_length(ask) {
            return Some(count);
        }
    }
    None
}

/// The number of a request's courses, where there are none or too many.
fn bad_length(ask: &Ask) -> Option<usize>
    ensures { result ≡ length_fault ask.now }
{
    match ask {
        Ask::Course(ask) => {
            let count = ask.courses.len();
            if count > 6 || count == 0 {
                Some(count)
            } else {
                None
            }
        }
        Ask::Free(_) => None,
    }
}
