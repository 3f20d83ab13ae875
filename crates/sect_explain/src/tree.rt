// A refutation tree in words.

ghost use Rattle.std.specs.Prelude.{◌≡◌, ◌≤◌, ◌+◌, ◌++◌, IfOk, OnOk, length, take};
ghost use Rattle.sect_explain.specs.Explained.{explain_below, explain_text};

use crate::line::print_decision;
use sect_base::{Block, Memory, Move, Node};
use sect_rules::{PathOf, option};
use sect_space::World;

/// Appends the tree that refutes a move in words: a line for each decision, deeper by two spaces below the one before it,
/// and behind a decision that breaks a rule what it breaks, with the number of the rule. After `Memory` a part of it may
/// stand at the end.
pub fn explain(world: &World, mv: &Move, tree: &Block, into: &mut Vec<u8>) -> Result<(), Memory>
    requires { length mv.now.take ≤ 4 }
    ensures text { OnOk result (into.new.items ≡ into.old.items ++ explain_text world.now.world mv.now tree.now) }
    ensures front { take (length into.old.items) into.new.items ≡ into.old.items }
{
    print_below(world, mv, &PathOf::<4>::start(), 0, tree, into)
}

/// Appends the decisions that follow a path, each with its tree.
fn print_below(
    world: &World,
    mv: &Move,
    path: &PathOf<4>,
    depth: u32,
    tree: &Block,
    into: &mut Vec<u8>,
) -> Result<(), Memory>
    requires { length mv.now.take ≤ 4 }
    ensures text { OnOk result (into.new.items ≡ into.old.items ++ explain_below world.now.world mv.now path.now depth tree.now) }
    ensures front { take (length into.old.items) into.new.items ≡ into.old.items }
{
    match tree.node() {
        Node::Broken(_, _) => Ok(()),
        Node::Split(trees) => {
            let below = deeper(depth)?;
            let mut at = 0;
            for tree in trees {
                let pick = match option(world, mv, path, at) {
                    Some(pick) => pick,
                    None => return Ok(()),
                };
                print_decision(world, depth, pick, tree, into)?;
                print_below(
                    world,
                    mv,
                    &path.extended(world, mv, pick),
                    below,
                    tree,
                    into,
                )?;
                at += 1;
            }
            Ok(())
        }
    }
}

/// One decision deeper.
fn deeper(depth: u32) -> Result<u32, Memory>
    ensures { IfOk result (λ below. below ≡ depth + 1) }
{
    match depth.checked_add(1) {
        Some(below) => Ok(below),
        None => Err(Memory),
    }
}
