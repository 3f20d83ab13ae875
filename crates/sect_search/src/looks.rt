// What a look at one option by itself does to a walk. The trees of the options that are refuted lie on a stack.

ghost use Rattle.std.specs.Prelude.{◌≡◌, ◌≤◌, ◌-◌, ◌++◌, ◌∷◌, [], length, take, drop, IfOk, OnOk};
ghost use Rattle.sect_base.specs.Tree.{broken as broken_leaf, split, trees_of};
ghost use Rattle.sect_search.specs.Texts.{HaveNumbers};
ghost use Rattle.sect_search.specs.Told.{itself, its_trees, closed_trees, HasBase};

use crate::searched::{Searched, Walk};
use sect_base::{Block, Memory, Rule};

/// A look at one option by itself, of which this is the rule that it breaks: None where what follows it is to be looked at. Where
/// it is refuted, its tree lies on the stack.
#[inline(always)]
pub fn looked(walk: &mut Walk, broken: Option<(Rule, u32)>) -> Result<Option<Searched>, Memory>
    ensures found { IfOk result (λ r. r ≡ itself broken walk.old.left) }
    ensures trees { OnOk result (walk.new.trees.items ≡ walk.old.trees.items ++ its_trees broken walk.old.left) }
    ensures numbers { OnOk result (HaveNumbers (trees_of (its_trees broken walk.old.left))) }
    ensures left { walk.new.left ≡ walk.old.left - 1 }
{
    if walk.left == 0 {
        return Ok(Some(Searched::Spent));
    }
    walk.left -= 1;
    match broken {
        None => Ok(None),
        Some((rule, number)) => {
            put_leaf(&mut walk.trees, rule, number)?;
            Ok(Some(Searched::Refuted))
        }
    }
}

/// What followed an option: where all of that is refuted, its trees are put into one.
#[inline(always)]
pub fn closed(trees: &mut Vec<Block>, base: usize, found: Searched) -> Result<(), Memory>
    requires { HasBase base trees.old.items found }
    ensures { OnOk result (trees.new.items ≡ closed_trees base trees.old.items found) }
{
    match found {
        Searched::Found => Ok(()),
        Searched::Refuted => put_split(trees, base),
        Searched::Spent => Ok(()),
    }
}

/// How many trees lie on the stack.
#[inline(always)]
pub fn height(trees: &Vec<Block>) -> usize
    ensures { result ≡ length trees.now.items }
{
    trees.len()
}

/// A broken rule, put on the stack. Room is made first, so that nothing is handed back.
#[inline(always)]
fn put_leaf(trees: &mut Vec<Block>, rule: Rule, number: u32) -> Result<(), Memory>
    ensures { OnOk result (trees.new.items ≡ trees.old.items ++ broken_leaf rule number ∷ []) }
{
    trees.reserve(1)?;
    trees.push_reserved(Block::broken(rule, number));
    Ok(())
}

/// The trees from a place on, put into one, which takes their place on the stack.
fn put_split(trees: &mut Vec<Block>, base: usize) -> Result<(), Memory>
    requires { base ≤ length trees.old.items }
    ensures { OnOk result (trees.new.items ≡ take base trees.old.items ++ split (trees_of (drop base trees.old.items)) ∷ []) }
{
    let own = trees.split_off(base)?;
    trees.push(Block::split(own))?;
    Ok(())
}
