// Which entries are sought: those that are marked, and those that want what opened.

ghost use Rattle.std.specs.Prelude.{◌≡◌, ◌==◌, ◌≤◌, ◌++◌, length, IfOk, IfSome, IsTrue};
ghost use Rattle.std.specs.List.{list_any};
ghost use Rattle.sect_wait.specs.Marked.{wants_one as is_wanting};
ghost use Rattle.sect_wait.specs.Opened.{AreListed, ListsMore, is_sought};

use crate::marks::Marks;
use crate::opened::Opened;
use crate::queue::Queue;
use sect_base::{CourseId, Memory};
use sect_model::Waiting;
use std::alloc::Global;

/// Whether the entry is marked, or wants what opened. It takes no memory.
pub fn seeks(marks: &Marks, opened: &Opened, entry: &Waiting) -> bool
    ensures { result ≡ is_sought marks.now opened.now entry.now }
{
    marks.has(entry) || wants_one(opened.courses.as_slice(), entry)
}

/// The tickets of the entries that are sought, and maybe others. None where they aren't few beside all entries, and where
/// they aren't known.
pub fn sought(
    alloc: Global,
    queue: &Queue,
    marks: &Marks,
    opened: &Opened,
) -> Result<Option<Vec<u64>>, Memory>
    ensures all { IfOk result (λ found. IfSome found (λ tickets. AreListed (is_sought marks.now opened.now) queue.now.queue.entries tickets.items)) }
    ensures bound { IfOk result (λ found. IfSome found (λ tickets. length tickets.items ≤ length queue.now.queue.entries)) }
{
    let most = queue.entries().len() / 8;
    let mut tickets = Vec::new(alloc);
    let whole = !marks.has_all()
        && list(marks.tickets(), most, &mut tickets)?
        && list_courses(queue, marks.courses(), most, &mut tickets)?
        && list_courses(queue, marks.givers(), most, &mut tickets)?
        && list_courses(queue, opened.courses.as_slice(), most, &mut tickets)?;
    if whole { Ok(Some(tickets)) } else { Ok(None) }
}

/// Lists the tickets of those who want one of the courses. False where these aren't known, or would be more than the most.
fn list_courses(
    queue: &Queue,
    courses: &[CourseId],
    most: usize,
    tickets: &mut Vec<u64>,
) -> Result<bool, Memory>
    requires bound { length tickets.old.items ≤ most }
    ensures more { IfOk result (λ whole. IsTrue whole → ListsMore (is_wanting courses.now) queue.now.queue.entries tickets.old.items tickets.new.items) }
    ensures bound { IfOk result (λ whole. length tickets.new.items ≤ most) }
{
    for course in courses {
        let Some(found) = queue.of_course(*course) else {
            return Ok(false);
        };
        if !list(found, most, tickets)? {
            return Ok(false);
        }
    }
    Ok(true)
}

/// Puts these tickets behind those that are listed. False where they would be more than the most: then nothing is listed.
fn list(more: &[u64], most: usize, tickets: &mut Vec<u64>) -> Result<bool, Memory>
    requires bound { length tickets.old.items ≤ most }
    ensures more { IfOk result (λ whole. IsTrue whole → tickets.new.items ≡ tickets.old.items ++ more.now) }
    ensures bound { IfOk result (λ whole. length tickets.new.items ≤ most) }
{
    if most - tickets.len() < more.len() {
        return Ok(false);
    }
    tickets.extend_from_slice(more)?;
    Ok(true)
}

/// Whether the entry wants one of these courses.
fn wants_one(courses: &[CourseId], entry: &Waiting) -> bool
    ensures { result ≡ is_wanting courses.now entry.now }
{
    courses.iter().any(|course| wants(entry, *course))
}

/// Whether the entry wants the course.
fn wants(entry: &Waiting, course: CourseId) -> bool
    ensures { result ≡ list_any (λ c. course.0 == c.0) entry.now.want.courses }
{
    entry
        .want
        .courses
        .as_slice()
        .iter()
        .any(|wanted| course == *wanted)
}
