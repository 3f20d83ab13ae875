// Entries of the wait-list.

ghost use Rattle.std.specs.Prelude.{◌≡◌, ◌==◌, nat_le, map, filter, length, Some};
ghost use Rattle.std.specs.Bool.{then_some};
ghost use Rattle.std.specs.List.{list_any};
ghost use Rattle.sect_model.specs.Batch.{share_course as has_shared};
ghost use Rattle.sect_model.specs.Rules.{least};
ghost use Rattle.sect_refuse.specs.Tickets.{lesser, is_shared, with_entry as with_one};

use sect_base::{CourseId, StudentId};
use sect_command::Refusal;
use sect_model::Waiting;

/// The most waiting entries.
pub const MOST_ENTRIES: usize = 10_000;

/// No place for an entry more.
pub fn many_entries(entries: &[Waiting]) -> Option<Refusal>
    ensures { result ≡ then_some (nat_le 10000 (length entries.now)) (Refusal.TooMany 10001) }
{
    if entries.len() >= MOST_ENTRIES {
        Some(Refusal::TooMany(10_001))
    } else {
        None
    }
}

/// The least ticket of the student's entries that share a course, None where there are none. It takes no memory.
pub fn ticket_of(entries: &[Waiting], student: StudentId, courses: &[CourseId]) -> Option<u64>
    ensures { result ≡ least (map (λ e. e.ticket) (filter (is_shared student courses.now) entries.now)) }
{
    let mut best = None;
    for entry in entries {
        best = with_entry(student, courses, best, entry);
    }
    best
}

/// The least ticket with an entry more.
fn with_entry(
    student: StudentId,
    courses: &[CourseId],
    best: Option<u64>,
    entry: &Waiting,
) -> Option<u64>
    ensures { result ≡ with_one student courses.now best entry.now }
{
    if entry.student == student && share_course(entry.want.courses.as_slice(), courses) {
        Some(earlier(best, entry.ticket))
    } else {
        best
    }
}

/// The lesser of the tickets.
fn earlier(best: Option<u64>, ticket: u64) -> u64
    ensures { Some result ≡ lesser best (Some ticket) }
{
    match best {
        Some(best) if best <= ticket => best,
        _ => ticket,
    }
}

/// Whether the lists share a course.
fn share_course(courses: &[CourseId], others: &[CourseId]) -> bool
    ensures { result ≡ has_shared courses.now others.now }
{
    courses.iter().any(|course| has(others, *course))
}

/// Whether the course is among the others.
fn has(others: &[CourseId], course: CourseId) -> bool
    ensures { result ≡ list_any (λ y. course.0 == y.0) others.now }
{
    others.iter().any(|other| course == *other)
}
