// What becomes of one course request: held, skipped, or what the search for it gives.

ghost use Rattle.std.specs.Prelude.{◌≡◌, ◌&&◌, nat_le, find, IfOk, IsTrue};
ghost use Rattle.std.specs.Option.{is_some};
ghost use Rattle.sect_people.specs.Student.{find_student};
ghost use Rattle.sect_model.specs.World.{held_by};
ghost use Rattle.sect_model.specs.Premises.{want_fits};
ghost use Rattle.sect_model.specs.Batch.{
  Batched,
  answer_to as answer_of_batch,
  search_for as search_result,
  result_of as result_of_outcome,
  request_move as move_of_request,
  want_of,
};
ghost use Rattle.sect_search.specs.One.{listed};
ghost use Rattle.sect_batch.specs.Lines.{Tells, MetFits, answer_by, has_course as is_in_course, unmet_of, met_of};

use crate::lines::{Answer, Lines};
use sect_base::{CourseId, Memory, Steps, StudentId};
use sect_command::LineResult;
use sect_model::Enrolment;
use sect_people::CourseAsk;
use sect_search::{LentMove, LentWant, OneOutcome, search_one, usual_budget};
use sect_space::{World, has_course};
use std::alloc::Global;
use std::sync::ledger::Ledger;

/// What becomes of a student's course request of this rank, behind the lines so far, where `held` is what the student holds.
pub fn answer_to<L: Ledger>(
    alloc: Global,
    world: &World,
    student: StudentId,
    rank: u8,
    ask: &CourseAsk,
    held: &[Enrolment],
    lines: &Lines,
    steps: &mut Steps<L>,
) -> Result<Answer, Memory>
    requires known { IsTrue (is_some (find_student world.now.world.students student)) }
    requires fits { IsTrue (want_fits world.now.world (want_of ask.now 0)) }
    requires held { held.now ≡ held_by world.now.world student }
    ensures answer { IfOk result (λ answer. (b : Batched) → Tells world.now.world lines.now b
        → answer ≡ answer_by (answer_of_batch b student rank ask.now) ask.now) }
    ensures met { IfOk result (λ answer. MetFits world.now.world student answer.result) }
{
    let result = line_result(alloc, world, student, rank, ask, held, lines, steps)?;
    Ok(Answer {
        result,
        wait: ask.wait,
        substitute: ask.substitute,
    })
}

/// What becomes of the request: held, skipped, or what the search for it gives.
fn line_result<L: Ledger>(
    alloc: Global,
    world: &World,
    student: StudentId,
    rank: u8,
    ask: &CourseAsk,
    held: &[Enrolment],
    lines: &Lines,
    steps: &mut Steps<L>,
) -> Result<LineResult, Memory>
    requires known { IsTrue (is_some (find_student world.now.world.students student)) }
    requires fits { IsTrue (want_fits world.now.world (want_of ask.now 0)) }
    requires held { held.now ≡ held_by world.now.world student }
    ensures line { IfOk result (λ line. (b : Batched) → Tells world.now.world lines.now b → line ≡ answer_of_batch b student rank ask.now) }
    ensures met { IfOk result (λ line. MetFits world.now.world student line) }
{
    match held_course(held, ask.courses.as_slice()) {
        Some(course) => Ok(LineResult::Held(course)),
        None => {
            if is_skipped(student, ask, lines) {
                Ok(LineResult::Skipped)
            } else {
                search_for(alloc, world, student, rank, ask, steps)
            }
        }
    }
}

/// Whether the request is a substitute that isn't needed behind the lines so far.
fn is_skipped(student: StudentId, ask: &CourseAsk, lines: &Lines) -> bool
    ensures { result ≡ ask.now.substitute && nat_le (unmet_of student lines.now.marks.items) (met_of student lines.now.marks.items) }
{
    ask.substitute && lines.has_enough(student)
}

/// The first of the courses that one of the enrolments is in.
fn held_course(enrolments: &[Enrolment], courses: &[CourseId]) -> Option<CourseId>
    ensures { result ≡ find (is_in_course enrolments.now) courses.now }
{
    for course in courses {
        if has_course(enrolments, *course) {
            return Some(*course);
        }
    }
    None
}

/// What the search for one of the request's courses gives.
fn search_for<L: Ledger>(
    alloc: Global,
    world: &World,
    student: StudentId,
    rank: u8,
    ask: &CourseAsk,
    steps: &mut Steps<L>,
) -> Result<LineResult, Memory>
    requires known { IsTrue (is_some (find_student world.now.world.students student)) }
    requires fits { IsTrue (want_fits world.now.world (want_of ask.now 0)) }
    ensures line { IfOk result (λ line. line ≡ search_result world.now.world student ask.now rank) }
    ensures met { IfOk result (λ line. MetFits world.now.world student line) }
{
    let mv = request_move(student, rank, ask);
    let found = search_one(alloc, world, &mv, usual_budget(), steps)?;
    Ok(result_of(found))
}

/// The move that takes one of the request's courses.
fn request_move(student: StudentId, rank: u8, ask: &CourseAsk) -> LentMove<'_>
    ensures { result ≡ move_of_request student ask.now rank }
{
    let want = LentWant::new(ask.courses.as_slice(), &[], rank);
    LentMove::one(student, &[], want)
}

/// The line of a search.
fn result_of(found: OneOutcome) -> LineResult
    ensures { result ≡ result_of_outcome (listed found) }
{
    match found {
        OneOutcome::Found(choice, _) => LineResult::Met(choice),
        OneOutcome::Blocked(tree, visits) => LineResult::Blocked(visits, tree),
        OneOutcome::Spent(_) => LineResult::Spent,
    }
}
