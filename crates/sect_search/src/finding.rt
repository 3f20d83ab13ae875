// The search with a budget.

ghost use Rattle.std.specs.Prelude.{◌≡◌, ◌+◌, ◌*◌, ◌≤◌, [], length, slice_get, Some, IfOk};
ghost use Rattle.sect_model.specs.Outcome.{outcome_of};
ghost use Rattle.sect_model.specs.Premises.{MoveFits};
ghost use Rattle.sect_model.specs.Stands.{MoveStands};
ghost use Rattle.sect_model.specs.Search.{search_of, searched_outcome};
ghost use Rattle.sect_model.specs.Visits.{most_decisions};
ghost use Rattle.sect_search.specs.Texts.{IsTold, IsToldIn};
ghost use Rattle.sect_search.specs.Told.{told, OutcomeNumbers, ToldNumbers};

use crate::searched::{Searched, Walk};
use crate::walk::below_want;
use sect_base::{Block, Budget, Items, Memory, Move, Steps};
use sect_model::Outcome;
use sect_moment::{LentMove, LentWant};
use sect_rules::Wanted;
use sect_space::World;
use std::alloc::Global;
use std::sync::ledger::Ledger;

/// The first allowed move in the order of the options, or where there is none the tree that
/// refutes every one, each with the number of options that were looked at; or that these are more
/// than the budget. A move that takes nothing is found at once. Each search counts one step.
/// The tree has a text: at most 36 brackets round a leaf, and no split without a tree. Where memory runs out, nothing has
/// changed but the count.
pub fn search<L: Ledger>(
    alloc: Global,
    world: &World,
    mv: &Move,
    budget: Budget,
    steps: &mut Steps<L>,
) -> Result<Outcome, Memory>
    requires { MoveFits world.now.world mv.now }
    ensures outcome { IfOk result (λ outcome. outcome ≡ outcome_of world.now.world mv.now budget) }
    ensures text { IfOk result IsTold }
    ensures steps { steps.new ≡ steps.old + 1 }
{
    search_lent(alloc, world, &LentMove::of(mv), budget, steps)
}

/// The same for a move whose lists are borrowed.
pub fn search_lent<L: Ledger>(
    alloc: Global,
    world: &World,
    mv: &LentMove,
    budget: Budget,
    steps: &mut Steps<L>,
) -> Result<Outcome, Memory>
    requires { MoveFits world.now.world mv.now }
    ensures outcome { IfOk result (λ outcome. outcome ≡ outcome_of world.now.world mv.now budget) }
    ensures text { IfOk result IsTold }
    ensures steps { steps.new ≡ steps.old + 1 }
{
    search_in::<4, L>(alloc, world, mv, budget, steps)
}

/// The same for a move that takes at most N. The tree has at most nine brackets round a leaf for
/// each want.
pub fn search_in<const N: usize, L: Ledger>(
    alloc: Global,
    world: &World,
    mv: &LentMove,
    budget: Budget,
    steps: &mut Steps<L>,
) -> Result<Outcome, Memory>
    requires stands { MoveStands world.now.world mv.now }
    requires room { length mv.now.take ≤ N }
    requires limit { N ≤ 20 }
    ensures outcome { IfOk result (λ outcome. outcome ≡ outcome_of world.now.world mv.now budget) }
    ensures text { IfOk result (IsToldIn (9 * length mv.now.take)) }
    ensures steps { steps.new ≡ steps.old + 1 }
{
    steps.tick();
    world.recall_kept();
    find::<N>(alloc, world, mv, budget)
}

/// The same, but that no step is counted.
fn find<const N: usize>(
    alloc: Global,
    world: &World,
    mv: &LentMove,
    budget: Budget,
) -> Result<Outcome, Memory>
    requires stands { MoveStands world.now.world mv.now }
    requires room { length mv.now.take ≤ N }
    requires limit { N ≤ 20 }
    ensures numbers { IfOk result OutcomeNumbers }
    ensures found { IfOk result (λ outcome. outcome ≡ searched_outcome budget (search_of world.now.world mv.now budget)) }
{
    let Some(want) = mv.want(0) else {
        return Ok(Outcome::Found(Items::from_vec(Vec::new(alloc)), 0));
    };
    let mut walk = Walk::new(alloc, budget);
    let searched = walk_all::<N>(alloc, world, mv, want, &mut walk)?;
    let Walk {
        left,
        trees,
        choices,
    } = walk;
    Ok(match searched {
        Searched::Found => Outcome::Found(choices.into_items()?, budget.get() - left),
        Searched::Refuted => Outcome::Blocked(Block::split(trees), budget.get() - left),
        Searched::Spent => Outcome::Spent(budget.get()),
    })
}

/// The walk of all options of a move, of which this is the first want.
#[inline(always)]
pub(crate) fn walk_all<const N: usize>(
    alloc: Global,
    world: &World,
    mv: &LentMove,
    want: LentWant,
    walk: &mut Walk,
) -> Result<Searched, Memory>
    requires stands { MoveStands world.now.world mv.now }
    requires room { length mv.now.take ≤ N }
    requires limit { N ≤ 20 }
    requires want { slice_get mv.now.take 0 ≡ Some want }
    requires none { walk.old.trees.items ≡ [] }
    ensures found { IfOk result (λ r. told r walk.new.choices walk.new.trees.items walk.new.left ≡ search_of world.now.world mv.now walk.old.left) }
    ensures numbers { IfOk result (ToldNumbers walk.new.trees.items) }
    ensures less { walk.new.left ≤ walk.old.left }
{
    let wanted = Wanted::new(world, mv, &[], want);
    below_want::<N>(alloc, &wanted, decisions(mv), walk)
}

/// The most decisions of a path: nine for each want.
fn decisions(mv: &LentMove) -> u32
    requires { length mv.now.take ≤ 20 }
    ensures { result ≡ most_decisions mv.now }
{
    9 * mv.len() as u32
}
