// What a search says of each unmet request, in several threads.

ghost use Rattle.std.specs.Prelude.{◌≡◌, ◌<◌, map, flat_map, All, IfOk};
ghost use Rattle.sect_model.specs.Outcome.{outcome_of};
ghost use Rattle.sect_model.specs.Premises.{MoveFits};
ghost use Rattle.sect_model.specs.Look.{unmet_views, students_by_id};
ghost use Rattle.sect_search.specs.One.{listed};
ghost use Rattle.sect_survey.specs.Survey.{unmet_move as move_of, why_of as why_by, line_of as line_by, survey_lines as lines_of_world};

use crate::line::{SurveyLine, Why};
use rayon::prelude::*;
use sect_base::{Items, Memory, Steps};
use sect_command::{Query, UnmetView, View};
use sect_search::{LentMove, LentWant, OneOutcome, search_one, usual_budget};
use sect_space::World;
use sect_view::view;
use std::alloc::{AllocError, Global};
use std::marker::Brand;
use std::sync::ledger::{Blank, Ledger};
use std::thread::Threads;

/// The lines of all unmet requests, by student and position, whatever threads searched.
pub fn survey_lines(
    rt: &(impl Threads + Sync),
    alloc: Global,
    world: &World,
) -> Result<Vec<SurveyLine>, Memory>
    ensures { IfOk result (λ lines. lines.items ≡ lines_of_world world.now.world) }
{
    world.recall_kept();
    let views = unmet_requests(alloc, world)?;
    lines_of(rt, alloc, world, views.as_slice())
}

/// The unmet requests, by student and position.
fn unmet_requests(alloc: Global, world: &World) -> Result<Items<UnmetView>, Memory>
    ensures { IfOk result (λ views. views ≡ flat_map (unmet_views world.now.world) (students_by_id world.now.world)) }
{
    match view(alloc, world, &[], &Query::Unmet)? {
        View::Unmet(views) => Ok(views),
        _ => unreachable!(),
    }
}

/// The line of each unmet request, in order, whatever threads searched. The pieces have 16 requests at least.
fn lines_of(
    rt: &(impl Threads + Sync),
    alloc: Global,
    world: &World,
    views: &[UnmetView],
) -> Result<Vec<SurveyLine>, Memory>
    requires { All (λ u. MoveFits world.now.world (move_of u)) views.now }
    ensures { IfOk result (λ lines. lines.items ≡ map (line_by world.now.world) views.now) }
{
    let made: Result<Result<Vec<SurveyLine>, Memory>, AllocError> = views
        .par_iter()
        .with_min_len(16)
        .map(
            |view: &UnmetView| -> Result<SurveyLine, Memory>
                requires { MoveFits world.now.world (move_of view.now) }
                ensures { IfOk result (λ line. line ≡ line_by world.entry.now.world view.now) }
            { line_of(alloc, world, view) },
        )
        .collect(rt, alloc);
    match made {
        Ok(Ok(lines)) => Ok(lines),
        _ => Err(Memory),
    }
}

/// The line of an unmet request. Its search is counted in a ledger of its own.
fn line_of(alloc: Global, world: &World, view: &UnmetView) -> Result<SurveyLine, Memory>
    requires { MoveFits world.now.world (move_of view.now) }
    ensures { IfOk result (λ line. line ≡ line_by world.now.world view.now) }
{
    let found = counted::<Brand>(alloc, world, view, Blank::new(1))?;
    Ok(SurveyLine {
        student: view.student,
        rank: view.rank,
        why: why_of(found),
    })
}

/// What a search within 2,000 visits finds for an unmet request, counted in this ledger.
fn counted<L: Ledger>(
    alloc: Global,
    world: &World,
    view: &UnmetView,
    blank: Blank,
) -> Result<OneOutcome, Memory>
    requires name { blank.name ≡ L.name }
    requires parts { blank.parts ≡ L.parts }
    requires some { 0 < blank.parts }
    requires fits { MoveFits world.now.world (move_of view.now) }
    ensures { IfOk result (λ found. listed found ≡ outcome_of world.now.world (move_of view.now) 2000) }
{
    let mut steps: Steps<L> = Steps::new(blank);
    search_one(alloc, world, &unmet_move(view), usual_budget(), &mut steps)
}

/// The move that takes one of the request's courses.
fn unmet_move(view: &UnmetView) -> LentMove<'_>
    ensures { result ≡ move_of view.now }
{
    let want = LentWant::new(view.courses.as_slice(), &[], view.rank);
    LentMove::one(view.student, &[], want)
}

/// Why a request is unmet, by what the search found.
fn why_of(found: OneOutcome) -> Why
    ensures { result ≡ why_by (listed found) }
{
    match found {
        OneOutcome::Found(choice, _) => Why::Open(choice),
        OneOutcome::Blocked(tree, visits) => Why::Blocked(tree, visits),
        OneOutcome::Spent(_) => Why::Spent,
    }
}
