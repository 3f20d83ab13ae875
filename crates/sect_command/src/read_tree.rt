// Reading the text of a refutation tree.

ghost use Rattle.std.specs.Prelude.{◌≡◌, ◌∷◌, List, [], Option, IfOk, IfSome, Some, length, option_map};
ghost use Rattle.sect_base.specs.Tree.{Tree};
ghost use Rattle.sect_command.specs.Reading.{digits_after, begins_with_digit, number_in, rule_of, leaf_in, leaf_with, tree_in, options_in, mark_in, opened_in};
ghost use Rattle.sect_command.specs.TreeText.{HasText, tree_text};

use sect_base::{Block, Memory, Rule};
use std::alloc::Global;

/// The rule of a number, from 1 in the order of the tests.
fn rule_with(number: u32) -> Option<Rule>
    ensures { result ≡ rule_of number }
{
    match number {
        1 => Some(Rule::InOffering),
        2 => Some(Rule::Credits),
        3 => Some(Rule::NotApplicable),
        4 => Some(Rule::Expired),
        5 => Some(Rule::UsedUp),
        6 => Some(Rule::MustUse),
        7 => Some(Rule::CourseFull),
        8 => Some(Rule::OfferingFull),
        9 => Some(Rule::OfferingReserved),
        10 => Some(Rule::ConfigFull),
        11 => Some(Rule::ConfigReserved),
        12 => Some(Rule::NotIncluded),
        13 => Some(Rule::Restricted),
        14 => Some(Rule::Cancelled),
        15 => Some(Rule::Parent),
        16 => Some(Rule::SectionFull),
        17 => Some(Rule::SectionReserved),
        18 => Some(Rule::Overlap),
        19 => Some(Rule::FreeTime),
        20 => Some(Rule::NotAsked),
        _ => None,
    }
}

/// The number with the digits that follow, and what stands behind them.
fn read_digits(first: u32, text: &[u8]) -> Option<(u32, &[u8])>
    ensures { option_map (λ x. (x.0, x.1.now)) result ≡ digits_after first text.now }
{
    let mut number = first;
    let mut rest = text;
    while let [digit, more @ ..] = rest {
        if !digit.is_ascii_digit() {
            break;
        }
        number = number
            .checked_mul(10)?
            .checked_add(u32::from(digit - b'0'))?;
        rest = more;
    }
    Some((number, rest))
}

/// The number at the front of a text, and what stands behind it.
fn read_number(text: &[u8]) -> Option<(u32, &[u8])>
    ensures { option_map (λ x. (x.0, x.1.now)) result ≡ number_in text.now }
{
    match text {
        [b'0', digit, ..] if digit.is_ascii_digit() => None,
        [digit, rest @ ..] if digit.is_ascii_digit() => read_digits(u32::from(digit - b'0'), rest),
        _ => None,
    }
}

/// The leaf at the front of a text, and what stands behind it.
fn read_leaf(text: &[u8]) -> Option<(Block, &[u8])>
    ensures { option_map (λ x. (x.0, x.1.now)) result ≡ leaf_in text.now }
{
    let (rule, rest) = read_number(text)?;
    let [b':', rest @ ..] = rest else {
        return None;
    };
    let rule = rule_with(rule)?;
    let (number, rest) = read_number(rest)?;
    Some((Block::broken(rule, number), rest))
}

/// What stands behind a tree in brackets: whether it is the bracket that closes, else a comma.
fn read_mark(text: &[u8]) -> Option<(bool, &[u8])>
    ensures { option_map (λ x. (x.0, x.1.now)) result ≡ mark_in text.now }
{
    match text {
        [b']', rest @ ..] => Some((true, rest)),
        [b',', rest @ ..] => Some((false, rest)),
        _ => None,
    }
}

/// What stands behind a bracket that opens.
fn read_opened(text: &[u8]) -> Option<&[u8]>
    ensures { option_map (λ x. x.now) result ≡ opened_in text.now }
{
    match text {
        [b'[', rest @ ..] => Some(rest),
        _ => None,
    }
}

/// The trees behind the bracket that opens a split, and what stands behind the one that closes it.
#[cycle(tree)]
fn read_options(
    alloc: Global,
    text: &[u8],
    deep: u32,
) -> Result<Option<(Vec<Block>, &[u8])>, Memory>
    ensures { IfOk result (λ found. option_map (λ x. (x.0.items, x.1.now)) found ≡ options_in (tree_in deep) (length text.now) [] text.now) }
{
    let mut options = Vec::new(alloc);
    let mut rest = text;
    for _turn in 0..text.len() {
        let Some((option, behind)) = read_tree(alloc, rest, deep)? else {
            return Ok(None);
        };
        options.push(option)?;
        let Some((last, behind)) = read_mark(behind) else {
            return Ok(None);
        };
        if last {
            return Ok(Some((options, behind)));
        }
        rest = behind;
    }
    Ok(None)
}

/// The tree at the front of a text, and what stands behind it.
#[cycle(tree)]
fn read_tree(alloc: Global, text: &[u8], deep: u32) -> Result<Option<(Block, &[u8])>, Memory>
    ensures { IfOk result (λ found. option_map (λ x. (x.0, x.1.now)) found ≡ tree_in deep text.now) }
{
    if deep == 0 {
        return Ok(read_leaf(text));
    }
    let Some(inside) = read_opened(text) else {
        return Ok(read_leaf(text));
    };
    match read_options(alloc, inside, deep - 1)? {
        Some((options, rest)) => Ok(Some((Block::split(options), rest))),
        None => Ok(None),
    }
}

/// The block of a text, with at most `deep` brackets round a leaf.
/// None exactly where the text is not that of such a tree. It takes memory.
pub fn read_block_within(alloc: Global, text: &[u8], deep: u32) -> Result<Option<Block>, Memory>
    ensures found { IfOk result (λ found. IfSome found (λ b. HasText deep b × (text.now ≡ tree_text b))) }
    ensures only { (t : Tree) → HasText deep t → text.now ≡ tree_text t → IfOk result (λ found. found ≡ Some t) }
{
    let Some((block, rest)) = read_tree(alloc, text, deep)? else {
        return Ok(None);
    };
    if rest.is_empty() {
        Ok(Some(block))
    } else {
        Ok(None)
    }
}

/// How many brackets lie round a leaf in a reply, at most.
pub const MOST_BRACKETS: u32 = 36;

/// The block of a text, with at most 36 brackets round a leaf.
/// None exactly where the text is not that of such a tree. It takes memory.
pub fn read_block(alloc: Global, text: &[u8]) -> Result<Option<Block>, Memory>
    ensures found { IfOk result (λ found. IfSome found (λ b. HasText 36 b × (text.now ≡ tree_text b))) }
    ensures only { (t : Tree) → HasText 36 t → text.now ≡ tree_text t → IfOk result (λ found. found ≡ Some t) }
{
    read_block_within(alloc, text, MOST_BRACKETS)
}
