// The line of a decision.

ghost use Rattle.std.specs.Prelude.{◌≡◌, ◌++◌, OnOk, length, take};
ghost use Rattle.sect_explain.specs.Explained.{decision_line, indent, verdict_text};

use crate::reason::{print_pick, print_reason};
use sect_base::{Block, Memory, Node};
use sect_model::Pick;
use sect_space::World;
use sect_words::print_text;

/// Appends the line of a decision with its tree. After `Memory` a part of it may stand at the end.
pub fn print_decision(
    world: &World,
    depth: u32,
    pick: Pick,
    tree: &Block,
    into: &mut Vec<u8>,
) -> Result<(), Memory>
    ensures text { OnOk result (into.new.items ≡ into.old.items ++ decision_line world.now.world depth pick tree.now) }
    ensures front { take (length into.old.items) into.new.items ≡ into.old.items }
{
    print_indent(depth, into)?;
    print_pick(pick, into)?;
    print_verdict(world, tree, into)
}

/// Appends two spaces for each decision before.
fn print_indent(depth: u32, into: &mut Vec<u8>) -> Result<(), Memory>
    ensures text { OnOk result (into.new.items ≡ into.old.items ++ indent depth) }
    ensures front { take (length into.old.items) into.new.items ≡ into.old.items }
{
    let mut left = depth;
    while left > 0 {
        print_text("  ", into)?;
        left -= 1;
    }
    Ok(())
}

/// Appends what ends the line of a decision.
fn print_verdict(world: &World, tree: &Block, into: &mut Vec<u8>) -> Result<(), Memory>
    ensures text { OnOk result (into.new.items ≡ into.old.items ++ verdict_text world.now.world tree.now) }
    ensures front { take (length into.old.items) into.new.items ≡ into.old.items }
{
    match tree.node() {
        Node::Broken(rule, number) => print_reason(world, *rule, *number, into),
        Node::Split(_) => print_text("\n", into),
    }
}
