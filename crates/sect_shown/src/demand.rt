// What is wanted of each course.

ghost use Rattle.std.specs.Prelude.{◌≡◌, ◌==◌, ◌++◌, OnOk, OnErr, filter, flat_map, length, take};
ghost use Rattle.std.specs.List.{list_any};
ghost use Rattle.sect_people.specs.Fault.{lists_course};
ghost use Rattle.sect_report.specs.Report.{listed_text};
ghost use Rattle.sect_shown.specs.Demand.{asks_for, demand_line, waits_for};

use sect_base::{CourseId, Memory};
use sect_command::{AsksView, OpenCourse, WaitView};
use sect_people::Ask;
use sect_report::{Word, print_line};

/// Appends the lines of the courses, or one that says that there are none. After `Memory` a part of them may stand at the end.
pub fn print_courses(
    asks: &[AsksView],
    entries: &[WaitView],
    courses: &[OpenCourse],
    into: &mut Vec<u8>,
) -> Result<(), Memory>
    ensures text { OnOk result (into.new.items ≡ into.old.items ++ listed_text (demand_line asks.now entries.now) courses.now) }
    ensures front { take (length into.old.items) into.new.items ≡ into.old.items }
{
    if courses.is_empty() {
        print_line(&[Word::Name("none")], into)
    } else {
        print_each(asks, entries, courses, into)
    }
}

/// Appends the lines of the courses.
fn print_each(
    asks: &[AsksView],
    entries: &[WaitView],
    courses: &[OpenCourse],
    into: &mut Vec<u8>,
) -> Result<(), Memory>
    ensures text { OnOk result (into.new.items ≡ into.old.items ++ flat_map (demand_line asks.now entries.now) courses.now) }
    ensures front { take (length into.old.items) into.new.items ≡ into.old.items }
{
    for course in courses {
        print_course(asks, entries, *course, into)?;
    }
    Ok(())
}

/// Appends the line of a course: how many of the students ask for it, how many hold it, how many of the entries wait for it, and
/// its limit. After `Memory` the bytes are as before.
fn print_course(
    asks: &[AsksView],
    entries: &[WaitView],
    course: OpenCourse,
    into: &mut Vec<u8>,
) -> Result<(), Memory>
    ensures text { OnOk result (into.new.items ≡ into.old.items ++ demand_line asks.now entries.now course) }
    ensures memory { OnErr result (into.new.items ≡ into.old.items) }
{
    let words = [
        Word::Name("course"),
        Word::Number(u64::from(course.course.0)),
        Word::Name("asked"),
        Word::Number(asked(asks, course.course) as u64),
        Word::Name("held"),
        Word::Number(u64::from(course.held)),
        Word::Name("waiting"),
        Word::Number(waiting(entries, course.course) as u64),
        Word::Name("limit"),
        Word::Places(course.limit),
    ];
    print_line(&words, into)
}

/// How many of the students ask for the course.
fn asked(asks: &[AsksView], course: CourseId) -> usize
    ensures { result ≡ length (filter (asks_for course) asks.now) }
{
    asks.iter().filter(|row| asks_for(row, course)).count()
}

/// Whether a request of the student is for the course.
fn asks_for(row: &AsksView, course: CourseId) -> bool
    ensures { result ≡ asks_for course row.now }
{
    row.asks.as_slice().iter().any(|ask| lists(ask, course))
}

/// Whether the request is for the course.
fn lists(ask: &Ask, course: CourseId) -> bool
    ensures { result ≡ lists_course course ask.now }
{
    match ask {
        Ask::Course(ask) => has_course(ask.courses.as_slice(), course),
        Ask::Free(_) => false,
    }
}

/// How many of the entries wait for the course.
fn waiting(entries: &[WaitView], course: CourseId) -> usize
    ensures { result ≡ length (filter (waits_for course) entries.now) }
{
    entries
        .iter()
        .filter(|entry| has_course(entry.courses.as_slice(), course))
        .count()
}

/// Whether the course is one of these.
fn has_course(courses: &[CourseId], course: CourseId) -> bool
    ensures { result ≡ list_any (λ c. c.0 == course.0) courses.now }
{
    courses.iter().any(|listed| listed.0 == course.0)
}
