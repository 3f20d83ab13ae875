// The leaves of refutation trees.

ghost use Rattle.std.specs.Prelude.{◌≡◌, ◌++◌, IfOk, OnOk};
ghost use Rattle.sect_base.specs.Tree.{rule_number};
ghost use Rattle.sect_survey.specs.Leaves.{leaves_of as leaves_of_tree, lacks_places as is_lacking};

use sect_base::{Block, Memory, Node, Rule};
use std::alloc::Global;

/// The leaves of a tree, in order: broken rules, each with its number.
pub fn leaves_of(alloc: Global, tree: &Block) -> Result<Vec<(Rule, u32)>, Memory>
    ensures { IfOk result (λ leaves. leaves.items ≡ leaves_of_tree tree.now) }
{
    let mut leaves = Vec::new(alloc);
    add_leaves(tree, &mut leaves)?;
    Ok(leaves)
}

/// Puts the leaves of a tree behind the others.
fn add_leaves(tree: &Block, leaves: &mut Vec<(Rule, u32)>) -> Result<(), Memory>
    ensures { OnOk result (leaves.new.items ≡ leaves.old.items ++ leaves_of_tree tree.now) }
{
    match tree.node() {
        Node::Broken(rule, number) => {
            leaves.push((*rule, *number))?;
            Ok(())
        }
        Node::Split(options) => {
            for option in options {
                add_leaves(option, leaves)?;
            }
            Ok(())
        }
    }
}

/// The number of a rule, from 1 to 20 in the order of the tests.
pub fn number_of(rule: Rule) -> u32
    ensures { result ≡ rule_number rule }
{
    rule as u32 + 1
}

/// Whether the rule says that a section has no place left, or that what is left in it is reserved for others.
pub fn lacks_places(rule: Rule) -> bool
    ensures { result ≡ is_lacking rule }
{
    matches!(rule, Rule::SectionFull | Rule::SectionReserved)
}
