// Why the commands that students may give are refused.

ghost use Rattle.std.specs.Prelude.{◌≡◌, ℕ, ◌&&◌, ◌||◌, ◌==◌, length, []};
ghost use Rattle.std.specs.Bool.{then_some};
ghost use Rattle.std.specs.List.{list_any};
ghost use Rattle.std.specs.Option.{option_or, option_to_list};
ghost use Rattle.sect_model.specs.Refusals.{
  unknown_course as courses_fault,
  not_enrolled_in as given_fault,
  is_empty_want,
  too_many as many_of,
  many_in_wants as wants_counts,
};
ghost use Rattle.sect_refuse.specs.Refused.{own_refusal, refused, refused_with};

use crate::held::{not_enrolled, not_enrolled_in};
use crate::told::too_many;
use crate::unknown::{
    unknown_course, unknown_courses, unknown_in_want, unknown_in_wants, unknown_student,
};
use crate::waiting::many_entries;
use crate::want::{any_empty_want, empty_want, many_in_want, many_in_wants};
use sect_base::{CourseId, Items, StudentId, Want};
use sect_command::{Command, Refusal};
use sect_model::Waiting;
use sect_space::World;

/// The most courses given up in a swap, and the most wants taken.
const MOST_MOVED: usize = 4;

/// Something is unknown, or the want has no course or too many.
pub fn enrol(world: &World, student: StudentId, want: &Want) -> Option<Refusal>
    ensures { (budget : ℕ) → result ≡ refused world.now.world (Command.Enrol student want.now budget) }
{
    unknown_student(world, student)
        .or_else(|| unknown_in_want(world, want))
        .or_else(|| empty_want(want))
        .or_else(|| many_in_want(want))
}

/// Something is unknown, or the course isn't held.
pub fn drop(world: &World, student: StudentId, course: CourseId) -> Option<Refusal>
    ensures { result ≡ refused world.now.world (Command.Drop student course) }
{
    unknown_student(world, student)
        .or_else(|| unknown_course(world, course))
        .or_else(|| not_enrolled(world, student, course))
}

/// Something is unknown, a want has no course or nothing is moved, there is too much of something, or a course given up
/// isn't held or is named twice.
pub fn swap(
    world: &World,
    student: StudentId,
    give: &Items<CourseId>,
    take: &Items<Want>,
) -> Option<Refusal>
    ensures { (budget : ℕ) → result ≡ refused world.now.world (Command.Swap student give.now take.now budget) }
{
    unknown_student(world, student)
        .or_else(|| unknown_courses(world, give.as_slice()))
        .or_else(|| unknown_in_wants(world, take.as_slice()))
        .or_else(|| nothing_moved(give.as_slice(), take.as_slice()))
        .or_else(|| many_in_swap(give.as_slice(), take.as_slice()))
        .or_else(|| not_enrolled_in(world, student, give.as_slice()))
}

/// More is given up or taken than a swap may move, or there is too much in a want.
fn many_in_swap(give: &[CourseId], take: &[Want]) -> Option<Refusal>
    ensures { result ≡ option_or (many_of 4 (length give.now)) (option_or (many_of 4 (length take.now)) (wants_counts take.now)) }
{
    too_many(MOST_MOVED, give.len())
        .or_else(|| too_many(MOST_MOVED, take.len()))
        .or_else(|| many_in_wants(take))
}

/// A want has no course, or nothing is given up and nothing taken.
fn nothing_moved(give: &[CourseId], take: &[Want]) -> Option<Refusal>
    ensures { result ≡ then_some (list_any is_empty_want take.now || length give.now == 0 && length take.now == 0) Refusal.EmptyWant }
{
    if any_empty_want(take) || give.is_empty() && take.is_empty() {
        Some(Refusal::EmptyWant)
    } else {
        None
    }
}

/// Something is unknown, the want has no course or too many, there is no place for an entry more, the course given up isn't
/// held, or the student waits for one of the courses, as the caller found.
pub fn wait(
    world: &World,
    entries: &[Waiting],
    own: Option<Refusal>,
    student: StudentId,
    want: &Want,
    give: Option<CourseId>,
) -> Option<Refusal>
    requires own { own ≡ own_refusal entries.now (Command.Wait student want.now give 0) }
    ensures { (class : ℕ) → result ≡ refused_with world.now.world entries.now (Command.Wait student want.now give class) }
{
    unknown_student(world, student)
        .or_else(|| unknown_in_want(world, want))
        .or_else(|| unknown_given(world, give))
        .or_else(|| empty_want(want))
        .or_else(|| many_in_want(want))
        .or_else(|| many_entries(entries))
        .or_else(|| not_enrolled_given(world, student, give))
        .or_else(|| own)
}

/// The course given up is unknown.
fn unknown_given(world: &World, give: Option<CourseId>) -> Option<Refusal>
    ensures { result ≡ courses_fault world.now.world (option_to_list give) }
{
    unknown_course(world, give?)
}

/// The course given up isn't held.
fn not_enrolled_given(world: &World, student: StudentId, give: Option<CourseId>) -> Option<Refusal>
    ensures { result ≡ given_fault world.now.world student [] (option_to_list give) }
{
    not_enrolled(world, student, give?)
}

/// The student is unknown, or has no entry with the ticket, as the caller found.
pub fn unwait(
    world: &World,
    entries: &[Waiting],
    own: Option<Refusal>,
    student: StudentId,
    ticket: u64,
) -> Option<Refusal>
    requires own { own ≡ own_refusal entries.now (Command.Unwait student ticket) }
    ensures { result ≡ refused_with world.now.world entries.now (Command.Unwait student ticket) }
{
    let _ = entries;
    let _ = ticket;
    unknown_student(world, student).or_else(|| own)
}
