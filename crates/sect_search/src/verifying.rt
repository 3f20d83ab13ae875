// Whether a tree refutes every choice.

ghost use Rattle.std.specs.Prelude.{◌≡◌, ◌<◌, ◌≤◌, ◌++◌, ◌∷◌, [], length, IfSome, Contains, IsTrue, slice_get, option_copied};
ghost use Rattle.sect_base.specs.TreeOf.{tree_of};
ghost use Rattle.sect_base.specs.Tree.{split, trees_of, size_of, sizes_of};
ghost use Rattle.sect_model.specs.Covers.{covers, covers_with, cover_each, is_leaf};
ghost use Rattle.sect_model.specs.Path.{options_at};
ghost use Rattle.sect_model.specs.Premises.{MoveFits};
ghost use Rattle.sect_model.specs.Stands.{MoveStands};
ghost use Rattle.sect_moment.specs.Completed.{opened};
ghost use Rattle.sect_rules.specs.Due.{place_of, place_at, pick_at, IsStep};
ghost use Rattle.sect_search.specs.Covered.{covered, covered_behind};
ghost use Rattle.sect_search.specs.Refutes.{NoMove};

use sect_base::{Block, Choice, Move, Node, Rule};
use sect_moment::LentMove;
use sect_rules::{Configured, Due, Joined, OnCourse, PathOf, Step, Wanted, broken, step_at};
use sect_space::World;

/// Whether the tree covers the path with no decision: it has one child for each option, a leaf is
/// the first rule that its decision breaks, with its number, and below a decision that breaks none
/// the tree covers what follows. Where it does, no list of choices is an allowed move. It takes no
/// memory.
pub fn verify(world: &World, mv: &Move, tree: &Block) -> bool
    requires { MoveFits world.now.world mv.now }
    ensures covers { result ≡ covers world.now.world mv.now tree.now }
    ensures refutes { IsTrue result → NoMove world.now.world mv.now }
{
    verify_in::<4>(world, &LentMove::of(mv), tree)
}

/// The same for a move that takes at most N.
pub fn verify_in<const N: usize>(world: &World, mv: &LentMove, tree: &Block) -> bool
    requires stands { MoveStands world.now.world mv.now }
    requires room { length mv.now.take ≤ N }
    requires limit { N ≤ 20 }
    ensures covers { result ≡ covers world.now.world mv.now tree.now }
    ensures refutes { IsTrue result → NoMove world.now.world mv.now }
{
    world.recall_kept();
    covers_all::<N>(world, mv, tree)
}

/// Whether the tree covers the path with no decision.
fn covers_all<const N: usize>(world: &World, mv: &LentMove, tree: &Block) -> bool
    requires stands { MoveStands world.now.world mv.now }
    requires room { length mv.now.take ≤ N }
    requires limit { N ≤ 20 }
    ensures { result ≡ covers world.now.world mv.now tree.now }
{
    match tree.node() {
        Node::Broken(_, _) => false,
        Node::Split(trees) => match mv.want(0) {
            None => false,
            Some(want) => cover::<N>(Due::Course(&Wanted::new(world, mv, &[], want)), trees),
        },
    }
}

/// The tree at a place, which is smaller than all of them together.
fn tree_at(trees: &[Block], at: usize) -> Option<&Block>
    ensures value { option_copied result ≡ slice_get trees.now at }
    ensures smaller { IfSome result (λ tree. size_of tree.now < sizes_of (trees_of trees.now)) }
{
    tree_in(trees, at)
}

/// The tree at a place.
fn tree_in(trees: &[Block], at: usize) -> Option<&Block>
    ensures { option_copied result ≡ slice_get trees.now at }
{
    trees.get(at)
}

/// The trees of a split, which are smaller than it.
fn below<'a>(tree: &Block, trees: &'a Vec<Block>) -> &'a [Block]
    requires { tree.now ≡ split (trees_of trees.now.items) }
    ensures value { result.now ≡ trees.now.items }
    ensures smaller { sizes_of (trees_of result.now) < size_of tree.now }
{
    let _ = tree;
    trees.as_slice()
}

/// Whether the leaf is this rule with this number.
fn is_same(leaf: Option<(Rule, u32)>, rule: Rule, number: u32) -> bool
    ensures { result ≡ is_leaf rule number leaf }
{
    match leaf {
        Some((broken, of)) => broken == rule && of == number,
        None => false,
    }
}

/// Whether the tree covers the path with one decision more.
#[cycle(covering)]
fn covers_step<const N: usize>(step: Step, tree: &Block) -> bool
    requires stands { MoveStands (place_at step).world (place_at step).mv }
    requires room { length (place_at step).mv.take ≤ N }
    requires limit { N ≤ 20 }
    requires option { Contains (options_at (place_at step).world (place_at step).mv (place_at step).path) (pick_at step) }
    requires row { IsStep step }
    ensures { result ≡ covers_with (place_at step.entry).world (place_at step.entry).mv (place_at step.entry).path (pick_at step.entry) tree.now }
{
    let leaf = broken(step);
    match tree.node() {
        Node::Broken(rule, number) => is_same(leaf, *rule, *number),
        Node::Split(trees) => leaf.is_none() && covers_behind::<N>(step, below(tree, trees)),
    }
}

/// Whether the path with one decision more, which breaks no rule, isn't complete, and the trees cover it.
#[cycle(covering)]
fn covers_behind<const N: usize>(step: Step, trees: &[Block]) -> bool
    requires stands { MoveStands (place_at step).world (place_at step).mv }
    requires room { length (place_at step).mv.take ≤ N }
    requires limit { N ≤ 20 }
    requires option { Contains (options_at (place_at step).world (place_at step).mv (place_at step).path) (pick_at step) }
    requires row { IsStep step }
    ensures { result ≡ covered_behind (place_at step.entry) (pick_at step.entry) trees.now }
{
    match step {
        Step::Course(wanted, course) => {
            let on = OnCourse::new(wanted, course);
            cover::<N>(Due::Reservation(&on), trees)
        }
        Step::Reservation(on, row) => {
            let by = Joined::new(on, row);
            cover::<N>(Due::Config(&by), trees)
        }
        Step::Config(by, row) => {
            let inside = Configured::new(by, row);
            cover::<N>(Due::Section(&inside), trees)
        }
        Step::Section(inside, row) => {
            inside.recall_room(row.id);
            match inside.completed(row.id) {
                Some(choice) => covers_ended::<N>(inside.by().on().wanted(), choice, trees),
                None => {
                    let next = inside.behind(row.id);
                    cover::<N>(Due::Section(&next), trees)
                }
            }
        }
    }
}

/// Whether the path with one choice more isn't complete, and the trees cover it.
#[cycle(covering)]
fn covers_ended<const N: usize>(wanted: &Wanted, choice: Choice, trees: &[Block]) -> bool
    requires stands { MoveStands wanted.now.world wanted.now.mv }
    requires room { length wanted.now.mv.take ≤ N }
    requires limit { N ≤ 20 }
    ensures { result ≡ covered wanted.now.world wanted.now.mv (opened (wanted.now.done ++ choice ∷ [])) trees.now }
{
    wanted.recall_left();
    let mv = wanted.mv();
    let done = wanted.done();
    match mv.want(done.len() + 1) {
        None => false,
        Some(want) => {
            let path = PathOf::<N>::made(done, choice);
            let next = Wanted::new(wanted.world(), mv, path.done(), want);
            cover::<N>(Due::Course(&next), trees)
        }
    }
}

/// Whether there are as many trees as options, and each covers its option.
#[cycle(covering)]
fn cover<const N: usize>(due: Due, trees: &[Block]) -> bool
    requires stands { MoveStands (place_of due).world (place_of due).mv }
    requires room { length (place_of due).mv.take ≤ N }
    requires limit { N ≤ 20 }
    ensures { result ≡ cover_each (place_of due.entry).world (place_of due.entry).mv (place_of due.entry).path
        (options_at (place_of due.entry).world (place_of due.entry).mv (place_of due.entry).path) (trees_of trees.now) }
{
    let mut at = 0;
    'options: while let Some(step) = step_at(due, at) {
        match tree_at(trees, at) {
            Some(tree) => {
                if !covers_step::<N>(step, tree) {
                    return false;
                }
            }
            None => return false,
        }
        at += 1;
    }
    at == trees.len()
}
