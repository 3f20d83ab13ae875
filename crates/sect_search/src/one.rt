// The search for one want.

ghost use Rattle.std.specs.Prelude.{◌≡◌, ◌+◌, length, IfOk};
ghost use Rattle.sect_model.specs.Outcome.{outcome_of};
ghost use Rattle.sect_model.specs.Premises.{MoveFits};
ghost use Rattle.sect_model.specs.Search.{search_of, searched_outcome};
ghost use Rattle.sect_search.specs.One.{listed};
ghost use Rattle.sect_search.specs.Texts.{IsTold};
ghost use Rattle.sect_search.specs.Told.{OutcomeNumbers};

use crate::finding::walk_all;
use crate::searched::{Searched, Walk};
use sect_base::{Block, Budget, Choice, Memory, Steps};
use sect_moment::LentMove;
use sect_space::World;
use std::alloc::Global;
use std::sync::ledger::Ledger;

/// What a search for one want answers: the first choice that is allowed, or where there is none the tree that refutes every one,
/// each with the number of options that were looked at; or the budget, where these are more.
#[derive(Drop)]
pub enum OneOutcome {
    Found(Choice, u32),
    Blocked(Block, u32),
    Spent(u32),
}

/// The search for a move that takes one want, whose choice takes no memory. It counts one step. The tree has a text, as
/// `search` says. Where memory runs out, nothing has changed but the count.
pub fn search_one<L: Ledger>(
    alloc: Global,
    world: &World,
    mv: &LentMove,
    budget: Budget,
    steps: &mut Steps<L>,
) -> Result<OneOutcome, Memory>
    requires fits { MoveFits world.now.world mv.now }
    requires one { length mv.now.take ≡ 1 }
    ensures outcome { IfOk result (λ found. listed found ≡ outcome_of world.now.world mv.now budget) }
    ensures text { IfOk result (λ found. IsTold (listed found)) }
    ensures steps { steps.new ≡ steps.old + 1 }
{
    steps.tick();
    world.recall_kept();
    find_one(alloc, world, mv, budget)
}

/// The same, but that no step is counted.
fn find_one(
    alloc: Global,
    world: &World,
    mv: &LentMove,
    budget: Budget,
) -> Result<OneOutcome, Memory>
    requires fits { MoveFits world.now.world mv.now }
    requires one { length mv.now.take ≡ 1 }
    ensures numbers { IfOk result (λ found. OutcomeNumbers (listed found)) }
    ensures found { IfOk result (λ found. listed found ≡ searched_outcome budget (search_of world.now.world mv.now budget)) }
{
    world.recall_kept();
    let Some(want) = mv.want(0) else {
        unreachable!();
    };
    let mut walk = Walk::new(alloc, budget);
    let searched = walk_all::<4>(alloc, world, mv, want, &mut walk)?;
    let Walk {
        left,
        trees,
        choices,
    } = walk;
    Ok(match searched {
        Searched::Found => OneOutcome::Found(choices.into_one(), budget.get() - left),
        Searched::Refuted => OneOutcome::Blocked(Block::split(trees), budget.get() - left),
        Searched::Spent => OneOutcome::Spent(budget.get()),
    })
}
