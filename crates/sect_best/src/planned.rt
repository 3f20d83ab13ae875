// What is planned of a student's course requests so far.

ghost use Rattle.std.specs.Prelude.{◌≡◌, IfOk};
ghost use Rattle.sect_search.specs.Texts.{IsToldIn};
ghost use Rattle.sect_best.specs.Told.{VerdictIsTold, AreTold, LinesAreTold};
ghost use Rattle.sect_best.specs.Plan.{nothing_planned, planned_by, judged_also as verdicts_with, lines_of as lines_by};

use crate::line::{PlanLine, PlanResult};
use sect_base::{Block, Choice, Items, Memory, Want};
use sect_model::Outcome;
use std::alloc::Global;

/// What was decided of a course request.
#[derive(Drop)]
pub enum Verdict {
    /// It is kept.
    Kept,
    /// The requests kept before it and it have no plan: a tree that refutes each, and how many decisions were visited.
    Unmet(Block, u32),
    /// The search would visit more decisions than the budget.
    Spent,
}

/// The verdict on the course request of a rank.
#[derive(Drop)]
pub struct Judged {
    pub rank: u8,
    pub verdict: Verdict,
}

/// The requests kept so far, as wants, their first plan, and the verdict on each request so far.
#[derive(Drop)]
pub struct Planned {
    pub kept: Items<Want>,
    pub plan: Items<Choice>,
    pub verdicts: Items<Judged>,
}

impl Planned {
    /// No request so far. It takes no memory.
    pub fn nothing(alloc: Global) -> Planned
        ensures { result ≡ nothing_planned }
    {
        Planned {
            kept: Items::from_vec(Vec::new(alloc)),
            plan: Items::from_vec(Vec::new(alloc)),
            verdicts: Items::from_vec(Vec::new(alloc)),
        }
    }

    /// What is planned by the outcome of the search for the wants that were tried, the kept ones and that of the
    /// request of this rank.
    pub fn judged(self, tried: Items<Want>, rank: u8, outcome: Outcome) -> Result<Planned, Memory>
        requires told { AreTold self.verdicts }
        requires outcome { IsToldIn 180 outcome }
        ensures planned { IfOk result (λ more. more ≡ planned_by self tried rank outcome) }
        ensures told { IfOk result (λ more. AreTold more.verdicts) }
    {
        let Planned {
            kept,
            plan,
            verdicts,
        } = self;
        match outcome {
            Outcome::Found(choices, _) => Ok(Planned {
                kept: tried,
                plan: choices,
                verdicts: judged_also(verdicts, rank, Verdict::Kept)?,
            }),
            Outcome::Blocked(tree, visits) => Ok(Planned {
                kept,
                plan,
                verdicts: judged_also(verdicts, rank, Verdict::Unmet(tree, visits))?,
            }),
            Outcome::Spent(_) => Ok(Planned {
                kept,
                plan,
                verdicts: judged_also(verdicts, rank, Verdict::Spent)?,
            }),
        }
    }

    /// A line for each verdict: the kept requests take the choices of the plan in turn.
    pub fn into_lines(self, alloc: Global) -> Result<Vec<PlanLine>, Memory>
        requires told { AreTold self.verdicts }
        ensures lines { IfOk result (λ lines. lines.items ≡ lines_by self.plan self.verdicts) }
        ensures told { IfOk result (λ lines. LinesAreTold lines.items) }
    {
        let Planned {
            kept: _,
            plan,
            verdicts,
        } = self;
        lines_of(alloc, plan.as_slice(), verdicts.into_vec())
    }
}

/// The verdicts with one more.
fn judged_also(verdicts: Items<Judged>, rank: u8, verdict: Verdict) -> Result<Items<Judged>, Memory>
    requires told { AreTold verdicts }
    requires verdict { VerdictIsTold verdict }
    ensures verdicts { IfOk result (λ more. more ≡ verdicts_with verdicts rank verdict) }
    ensures told { IfOk result AreTold }
{
    let mut verdicts = verdicts.into_vec();
    verdicts.push(Judged { rank, verdict })?;
    Ok(Items::from_vec(verdicts))
}

/// A line for each verdict: the kept requests take the choices in turn.
fn lines_of(
    alloc: Global,
    choices: &[Choice],
    verdicts: Vec<Judged>,
) -> Result<Vec<PlanLine>, Memory>
    ensures { IfOk result (λ lines. lines.items ≡ lines_by choices.now verdicts.items) }
{
    let mut left = choices;
    let mut lines = Vec::new(alloc);
    for judged in verdicts {
        let Judged { rank, verdict } = judged;
        let result = match verdict {
            Verdict::Kept => match left {
                [choice, later @ ..] => {
                    left = later;
                    PlanResult::Met(*choice)
                }
                [] => return Ok(lines),
            },
            Verdict::Unmet(tree, visits) => PlanResult::Unmet(tree, visits),
            Verdict::Spent => PlanResult::Spent,
        };
        lines.push(PlanLine { rank, result })?;
    }
    Ok(lines)
}
