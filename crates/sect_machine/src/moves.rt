// Moves: courses are given up, and choices taken, where a search finds them.

ghost use Rattle.std.specs.Prelude.{◌≡◌, List, map, IfOk, IsTrue, OnOk};
ghost use Rattle.std.specs.List.{list_all};
ghost use Rattle.std.specs.Option.{is_some};
ghost use Rattle.sect_base.specs.declared.choice.Want.{Want as Wanted};
ghost use Rattle.sect_people.specs.Order.{all_differ};
ghost use Rattle.sect_people.specs.Student.{find_student};
ghost use Rattle.sect_model.specs.World.{enrol_all, holds as is_held, leave_all};
ghost use Rattle.sect_model.specs.Move.{are_allowed, is_allowed_move};
ghost use Rattle.sect_model.specs.Outcome.{outcome_of};
ghost use Rattle.sect_model.specs.Premises.{MoveFits};
ghost use Rattle.sect_model.specs.Settle.{make_move as world_after_move};
ghost use Rattle.sect_model.specs.Step.{enrol_move as move_of_enrolment, enrolled as reply_to_enrolment};
ghost use Rattle.sect_search.specs.One.{listed};
ghost use Rattle.sect_space.specs.Undo.{Since, Undoable};
ghost use Rattle.sect_machine.specs.Acting.{moved_world, outcome_reply};

use crate::change::make;
use sect_base::{Budget, Choice, CourseId, Items, Memory, Steps, StudentId, Want};
use sect_command::Reply;
use sect_model::{Change, Enrolment, Outcome};
use sect_search::{LentMove, LentWant, OneOutcome, search_lent, search_one};
use sect_space::{Undo, World};
use std::alloc::Global;
use std::sync::ledger::Ledger;

/// Takes the student out of the courses given up, and enrols it by each choice. Where memory runs out, some of it is done.
fn make_move(
    world: &mut World,
    mv: &LentMove,
    choices: &[Choice],
    undo: &mut Undo,
) -> Result<(), Memory>
    requires fits { MoveFits world.old.world mv.now }
    requires allowed { IsTrue (is_allowed_move world.old.world mv.now choices.now) }
    requires undoable { Undoable world.old undo.old.backs }
    ensures ok { OnOk result (world.new.world ≡ world_after_move world.old.world mv.now choices.now) }
    ensures since { Since world.old.world undo.old.backs world.new.world undo.new.backs }
    ensures undoable { Undoable world.new undo.new.backs }
{
    let student = mv.student();
    give_up(world, student, mv.give(), undo)?;
    take(world, student, choices, undo)
}

/// Takes the student out of each course. It holds them, and none stands twice.
fn give_up(
    world: &mut World,
    student: StudentId,
    courses: &[CourseId],
    undo: &mut Undo,
) -> Result<(), Memory>
    requires held { IsTrue (list_all (is_held world.old.world student) courses.now) }
    requires differ { IsTrue (all_differ (map (λ c. c.0) courses.now)) }
    requires undoable { Undoable world.old undo.old.backs }
    ensures ok { OnOk result (world.new.world ≡ leave_all world.old.world student courses.now) }
    ensures since { Since world.old.world undo.old.backs world.new.world undo.new.backs }
    ensures undoable { Undoable world.new undo.new.backs }
{
    for course in courses {
        make(world, Change::Leave(student, *course), undo)?;
    }
    Ok(())
}

/// Enrols the student by each choice. Each is allowed for its want, once the earlier ones are taken.
fn take(
    world: &mut World,
    student: StudentId,
    choices: &[Choice],
    undo: &mut Undo,
) -> Result<(), Memory>
    requires known { IsTrue (is_some (find_student world.old.world.students student)) }
    requires allowed { (wants : List Wanted) × IsTrue (are_allowed world.old.world student wants choices.now) }
    requires undoable { Undoable world.old undo.old.backs }
    ensures ok { OnOk result (world.new.world ≡ enrol_all world.old.world student choices.now) }
    ensures since { Since world.old.world undo.old.backs world.new.world undo.new.backs }
    ensures undoable { Undoable world.new undo.new.backs }
{
    for choice in choices {
        let enrolment = Enrolment {
            student,
            choice: *choice,
        };
        make(world, Change::Enrol(enrolment), undo)?;
    }
    Ok(())
}

/// Searches for a move, and makes it where it is found.
fn search_move<L: Ledger>(
    alloc: Global,
    world: &mut World,
    mv: &LentMove,
    budget: Budget,
    undo: &mut Undo,
    steps: &mut Steps<L>,
) -> Result<Outcome, Memory>
    requires fits { MoveFits world.old.world mv.now }
    requires undoable { Undoable world.old undo.old.backs }
    ensures outcome { IfOk result (λ outcome. outcome ≡ outcome_of world.old.world mv.now budget) }
    ensures ok { IfOk result (λ outcome. world.new.world ≡ moved_world world.old.world mv.now outcome) }
    ensures since { Since world.old.world undo.old.backs world.new.world undo.new.backs }
    ensures undoable { Undoable world.new undo.new.backs }
{
    let outcome = search_lent(alloc, world, mv, budget, steps)?;
    if let Outcome::Found(choices, _) = &outcome {
        make_move(world, mv, choices.as_slice(), undo)?;
    }
    Ok(outcome)
}

/// Enrols the student by the first choice that is allowed for the want.
pub fn enrol<L: Ledger>(
    alloc: Global,
    world: &mut World,
    student: StudentId,
    want: &Want,
    budget: Budget,
    undo: &mut Undo,
    steps: &mut Steps<L>,
) -> Result<Reply, Memory>
    requires fits { MoveFits world.old.world (move_of_enrolment student want.now) }
    requires undoable { Undoable world.old undo.old.backs }
    ensures reply { IfOk result (λ reply. reply ≡ outcome_reply reply_to_enrolment (outcome_of world.old.world (move_of_enrolment student want.now) budget)) }
    ensures ok { OnOk result (world.new.world
        ≡ moved_world world.old.world (move_of_enrolment student want.now)
        (outcome_of world.old.world (move_of_enrolment student want.now) budget)) }
    ensures since { Since world.old.world undo.old.backs world.new.world undo.new.backs }
    ensures undoable { Undoable world.new undo.new.backs }
{
    let mv = LentMove::one(student, &[], LentWant::of(want));
    let found = search_one(alloc, world, &mv, budget, steps)?;
    if let OneOutcome::Found(choice, _) = &found {
        let enrolment = Enrolment {
            student,
            choice: *choice,
        };
        make(world, Change::Enrol(enrolment), undo)?;
    }
    Ok(enrolled(found))
}

/// Gives the courses up, and enrols the student by the first choices that are allowed for the wants. Where there are none,
/// nothing is changed.
pub fn swap<L: Ledger>(
    alloc: Global,
    world: &mut World,
    student: StudentId,
    give: &Items<CourseId>,
    take: &Items<Want>,
    budget: Budget,
    undo: &mut Undo,
    steps: &mut Steps<L>,
) -> Result<Reply, Memory>
    requires fits { MoveFits world.old.world (record { student = student; give = give.now; take = take.now }) }
    requires undoable { Undoable world.old undo.old.backs }
    ensures reply { IfOk result (λ reply. reply
        ≡ outcome_reply Reply.Swapped (outcome_of world.old.world
        (record { student = student; give = give.now; take = take.now }) budget)) }
    ensures ok { OnOk result (world.new.world
        ≡ moved_world world.old.world (record { student = student; give = give.now; take = take.now })
        (outcome_of world.old.world (record { student = student; give = give.now; take = take.now }) budget)) }
    ensures since { Since world.old.world undo.old.backs world.new.world undo.new.backs }
    ensures undoable { Undoable world.new undo.new.backs }
{
    let mv = LentMove::all(student, give.as_slice(), take.as_slice());
    let outcome = search_move(alloc, world, &mv, budget, undo, steps)?;
    Ok(swapped(outcome))
}

/// The reply to an enrolment with this outcome.
fn enrolled(found: OneOutcome) -> Reply
    ensures { result ≡ outcome_reply reply_to_enrolment (listed found) }
{
    match found {
        OneOutcome::Found(choice, _) => Reply::Enrolled(choice),
        OneOutcome::Blocked(tree, visits) => Reply::Blocked(visits, tree),
        OneOutcome::Spent(budget) => Reply::Spent(budget),
    }
}

/// The reply to a swap with this outcome.
fn swapped(outcome: Outcome) -> Reply
    ensures { result ≡ outcome_reply Reply.Swapped outcome }
{
    match outcome {
        Outcome::Found(choices, _) => Reply::Swapped(choices),
        Outcome::Blocked(tree, visits) => Reply::Blocked(visits, tree),
        Outcome::Spent(budget) => Reply::Spent(budget),
    }
}
