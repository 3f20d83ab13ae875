// The text of a refutation tree.

ghost use Rattle.std.specs.Prelude.{◌≡◌, ◌≤◌, ◌++◌, ◌∷◌, OnOk, OnErr, decimal, drop, length, take};
ghost use Rattle.sect_base.specs.Tree.{broken, rule_number};
ghost use Rattle.sect_command.specs.TreeText.{tree_text};

use itoa::write_digits;
use sect_base::{Block, Memory, Node, Rule};

/// The number of a rule, from 1 in the order of the tests.
fn number_of(rule: Rule) -> u8
    ensures { result ≡ rule_number rule }
{
    match rule {
        Rule::InOffering => 1,
        Rule::Credits => 2,
        Rule::NotApplicable => 3,
        Rule::Expired => 4,
        Rule::UsedUp => 5,
        Rule::MustUse => 6,
        Rule::CourseFull => 7,
        Rule::OfferingFull => 8,
        Rule::OfferingReserved => 9,
        Rule::ConfigFull => 10,
        Rule::ConfigReserved => 11,
        Rule::NotIncluded => 12,
        Rule::Restricted => 13,
        Rule::Cancelled => 14,
        Rule::Parent => 15,
        Rule::SectionFull => 16,
        Rule::SectionReserved => 17,
        Rule::Overlap => 18,
        Rule::FreeTime => 19,
        Rule::NotAsked => 20,
    }
}

/// Writes a leaf at the end of the bytes, and returns where it starts.
#[tactic(auto, using(crate::proofs::DigitCounts::ten_digits))]
fn put_leaf(rule: Rule, number: u32, bytes: &mut [u8; 24]) -> usize
    ensures start { result ≤ 24 }
    ensures written { drop result bytes.new ≡ tree_text (broken rule number) }
{
    let digits = write_digits(u64::from(number), bytes, 24);
    let colon = digits - 1;
    bytes[colon] = b':';
    write_digits(u64::from(number_of(rule)), bytes, colon)
}

/// Appends a leaf, all in one piece. After `Memory` a part of it may stand at the end.
fn print_leaf(rule: Rule, number: u32, into: &mut Vec<u8>) -> Result<(), Memory>
    ensures text { OnOk result (into.new.items ≡ into.old.items ++ tree_text (broken rule number)) }
    ensures front { take (length into.old.items) into.new.items ≡ into.old.items }
{
    let mut bytes = [0; 24];
    let start = put_leaf(rule, number, &mut bytes);
    into.extend_from_slice(&bytes[start..])?;
    Ok(())
}

/// Appends a tree. After `Memory` a part of it may stand at the end.
fn print_tree(b: &Block, into: &mut Vec<u8>) -> Result<(), Memory>
    ensures text { OnOk result (into.new.items ≡ into.old.items ++ tree_text b.now) }
    ensures front { take (length into.old.items) into.new.items ≡ into.old.items }
{
    match b.node() {
        Node::Broken(rule, number) => print_leaf(*rule, *number, into),
        Node::Split(options) => {
            into.push(b'[')?;
            let mut first = true;
            for option in options {
                if !first {
                    into.push(b',')?;
                }
                print_tree(option, into)?;
                first = false;
            }
            into.push(b']')?;
            Ok(())
        }
    }
}

/// Appends the text of a block. It takes memory.
/// After `Memory` the bytes are as before.
pub fn print_block(b: &Block, into: &mut Vec<u8>) -> Result<(), Memory>
    ensures text { OnOk result (into.new.items ≡ into.old.items ++ tree_text b.now) }
    ensures memory { OnErr result (into.new.items ≡ into.old.items) }
{
    let before = into.len();
    let printed = print_tree(b, into);
    if printed.is_err() {
        into.truncate(before);
    }
    printed
}
