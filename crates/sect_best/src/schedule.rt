// The best whole schedule: the course requests are taken one after the other, and each is kept where there is a plan
// with it.

ghost use Rattle.std.specs.Prelude.{◌≡◌, ◌≤◌, ◌<◌, ◌+◌, ◌++◌, ◌∷◌, [], length, map, IfOk, IsTrue};
ghost use Rattle.std.specs.List.{list_all};
ghost use Rattle.std.specs.Option.{is_some};
ghost use Rattle.sect_people.specs.Student.{find_student};
ghost use Rattle.sect_model.specs.Premises.{want_fits};
ghost use Rattle.sect_best.specs.Told.{AreTold, LinesAreTold};
ghost use Rattle.sect_best.specs.Plan.{plan_move as move_of_plan, plan_ask, plan_asks, nothing_planned, planned as planned_of, plan_lines};

use crate::line::PlanLine;
use crate::planned::Planned;
use crate::wants::wants_of;
use sect_base::{Budget, CourseId, Duplicate, Items, Memory, Move, Steps, StudentId, Want};
use sect_model::Enrolment;
use sect_search::{LentMove, search_in};
use sect_space::World;
use std::alloc::Global;
use std::marker::Brand;
use std::sync::ledger::{Blank, Ledger};

/// A line for each course request of a known student, by position, planned as if the student held nothing: a request is
/// kept where the requests kept before it and it have a plan, and the search for the first one visits at most
/// `budget` decisions. The kept requests have the choices of the last plan. The trees of the others nest at most 180
/// deep. The one error is want of memory, and the world is as before after every answer.
pub fn best(
    alloc: Global,
    world: &mut World,
    student: StudentId,
    budget: Budget,
) -> Result<Vec<PlanLine>, Memory>
    requires known { IsTrue (is_some (find_student world.old.world.students student)) }
    ensures lines { IfOk result (λ lines. lines.items ≡ plan_lines world.old.world student budget) }
    ensures told { IfOk result (λ lines. LinesAreTold lines.items) }
    ensures world { world.new ≡ world.old }
{
    best_in(alloc, world, student, budget)
}

/// The same in a world that is only read.
pub fn best_in(
    alloc: Global,
    world: &World,
    student: StudentId,
    budget: Budget,
) -> Result<Vec<PlanLine>, Memory>
    requires known { IsTrue (is_some (find_student world.now.world.students student)) }
    ensures lines { IfOk result (λ lines. lines.items ≡ plan_lines world.now.world student budget) }
    ensures told { IfOk result (λ lines. LinesAreTold lines.items) }
{
    counted::<Brand>(alloc, world, student, budget, Blank::new(1))
}

/// The lines, whose searches are counted in a ledger of their own.
fn counted<L: Ledger>(
    alloc: Global,
    world: &World,
    student: StudentId,
    budget: Budget,
    blank: Blank,
) -> Result<Vec<PlanLine>, Memory>
    requires name { blank.name ≡ L.name }
    requires parts { blank.parts ≡ L.parts }
    requires some { 0 < blank.parts }
    requires known { IsTrue (is_some (find_student world.now.world.students student)) }
    ensures lines { IfOk result (λ lines. lines.items ≡ plan_lines world.now.world student budget) }
    ensures told { IfOk result (λ lines. LinesAreTold lines.items) }
{
    let mut steps: Steps<L> = Steps::new(blank);
    plan(alloc, world, student, budget, &mut steps)?.into_lines(alloc)
}

/// What is planned of all course requests.
fn plan<L: Ledger>(
    alloc: Global,
    world: &World,
    student: StudentId,
    budget: Budget,
    steps: &mut Steps<L>,
) -> Result<Planned, Memory>
    requires known { IsTrue (is_some (find_student world.now.world.students student)) }
    ensures planned { IfOk result (λ planned. planned ≡ planned_of world.now.world student budget) }
    ensures told { IfOk result (λ planned. AreTold planned.verdicts) }
{
    world.recall_kept();
    let wants = wants_of(alloc, world.asks(student))?;
    plan_wants(alloc, world, student, budget, wants, steps)
}

/// What is planned of the wants, one after the other.
fn plan_wants<L: Ledger>(
    alloc: Global,
    world: &World,
    student: StudentId,
    budget: Budget,
    wants: Vec<Want>,
    steps: &mut Steps<L>,
) -> Result<Planned, Memory>
    requires known { IsTrue (is_some (find_student world.now.world.students student)) }
    requires fit { IsTrue (list_all (want_fits world.now.world) wants.items) }
    requires bound { length wants.items ≤ 20 }
    ensures planned { IfOk result (λ planned. planned ≡ plan_asks world.now.world student budget nothing_planned wants.items) }
    ensures told { IfOk result (λ planned. AreTold planned.verdicts) }
{
    let mut planned = Planned::nothing(alloc);
    for want in wants {
        planned = plan_want(alloc, world, student, budget, planned, want, steps)?;
    }
    Ok(planned)
}

/// What is planned with a request more.
fn plan_want<L: Ledger>(
    alloc: Global,
    world: &World,
    student: StudentId,
    budget: Budget,
    planned: Planned,
    want: Want,
    steps: &mut Steps<L>,
) -> Result<Planned, Memory>
    requires known { IsTrue (is_some (find_student world.now.world.students student)) }
    requires kept { IsTrue (list_all (want_fits world.now.world) planned.kept) }
    requires fits { IsTrue (want_fits world.now.world want) }
    requires bound { length planned.kept < 20 }
    requires told { AreTold planned.verdicts }
    ensures planned { IfOk result (λ more. more ≡ plan_ask world.now.world student budget planned want) }
    ensures told { IfOk result (λ more. AreTold more.verdicts) }
{
    let rank = want.rank;
    let mv = plan_move(alloc, world, student, &planned.kept, want)?;
    let outcome = search_in::<20, L>(alloc, world, &LentMove::of(&mv), budget, steps)?;
    let Move {
        student: _,
        give: _,
        take,
    } = mv;
    planned.judged(take, rank, outcome)
}

/// The move that gives up all that the student holds, and takes the kept wants and one more.
fn plan_move(
    alloc: Global,
    world: &World,
    student: StudentId,
    kept: &Items<Want>,
    want: Want,
) -> Result<Move, Memory>
    ensures { IfOk result (λ mv. mv ≡ move_of_plan world.now.world student (kept.now ++ want ∷ [])) }
{
    let mut take = kept.copy(alloc)?.into_vec();
    take.push(want)?;
    Ok(Move {
        student,
        give: courses_of(alloc, world.enrolments(student))?,
        take: Items::from_vec(take),
    })
}

/// The courses of the enrolments.
fn courses_of(alloc: Global, enrolments: &[Enrolment]) -> Result<Items<CourseId>, Memory>
    ensures { IfOk result (λ courses. courses ≡ map (λ e. e.choice.course) enrolments.now) }
{
    let mut courses = Vec::new(alloc);
    for enrolment in enrolments {
        courses.push(enrolment.choice.course)?;
    }
    Ok(Items::from_vec(courses))
}
