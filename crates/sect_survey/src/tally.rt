// What the lines of a survey count.

ghost use Rattle.std.specs.Prelude.{◌≡◌, ◌+◌, ◌++◌, ◌∷◌, [], ◌&&◌, ◌||◌, not, nat_eq, length, filter, cond, IfOk, OnOk, List};
ghost use Rattle.std.specs.HashSet.{contains};
ghost use Rattle.sect_base.specs.declared.rule.Rule.{Rule as Rule_of};
ghost use Rattle.sect_base.specs.declared.ids.SectionId.{SectionId};
ghost use Rattle.sect_base.specs.Tree.{rule_number};
ghost use Rattle.sect_survey.specs.Leaves.{breaks, leaves_want, leaf_wants};
ghost use Rattle.sect_survey.specs.declared.line.SurveyLine.{SurveyLine as Line_of};
ghost use Rattle.sect_survey.specs.Counted.{count_in, Tallies};

use crate::counts::Counts;
use crate::leaves::{lacks_places, leaves_of, number_of};
use crate::line::{SurveyLine, Why};
use sect_base::{Memory, Rule};
use std::alloc::Global;
use std::collections::HashSet;

/// How many leaves each rule has, and how many lines want a place in each section.
#[derive(Drop)]
pub struct Tally {
    pub leaves: Counts,
    pub lines: Counts,
}

/// What the lines count.
pub fn tally_of(alloc: Global, lines: &[SurveyLine]) -> Result<Tally, Memory>
    ensures { IfOk result (λ tally. Tallies tally lines.now) }
{
    let mut tally = Tally {
        leaves: Counts::none(alloc),
        lines: Counts::none(alloc),
    };
    for line in lines {
        tally.add_line(alloc, line)?;
    }
    Ok(tally)
}

impl Tally {
    /// Counts a line more.
    fn add_line(&mut self, alloc: Global, line: &SurveyLine) -> Result<(), Memory>
        ensures { OnOk result ((lines : List Line_of) → Tallies self.old lines → Tallies self.new (lines ++ line.now ∷ [])) }
    {
        match &line.why {
            Why::Open(_) => Ok(()),
            Why::Blocked(tree, _) => {
                let leaves = leaves_of(alloc, tree)?;
                count_rules(&mut self.leaves, leaves.as_slice())?;
                count_sections(alloc, &mut self.lines, leaves.as_slice())
            }
            Why::Spent => Ok(()),
        }
    }
}

/// Counts the rule of each leaf.
fn count_rules(counts: &mut Counts, leaves: &[(Rule, u32)]) -> Result<(), Memory>
    ensures { OnOk result ((rule : Rule_of) → count_in counts.new (rule_number rule)
        ≡ count_in counts.old (rule_number rule) + length (filter (breaks rule) leaves.now)) }
{
    for leaf in leaves {
        counts.add(number_of(leaf.0))?;
    }
    Ok(())
}

/// Counts each section that the leaves want a place in, once.
fn count_sections(alloc: Global, counts: &mut Counts, leaves: &[(Rule, u32)]) -> Result<(), Memory>
    ensures { OnOk result ((section : SectionId) → count_in counts.new section.0 ≡ count_in counts.old section.0 + cond (leaves_want section leaves.now) 1 0) }
{
    let mut seen = HashSet::new(alloc);
    for leaf in leaves {
        count_section(counts, &mut seen, *leaf)?;
    }
    Ok(())
}

/// Counts the section that the leaf wants a place in, where it wasn't seen before.
fn count_section(
    counts: &mut Counts,
    seen: &mut HashSet<u32>,
    leaf: (Rule, u32),
) -> Result<(), Memory>
    ensures seen { OnOk result ((section : SectionId) → contains nat_eq seen.new section.0 ≡ contains nat_eq seen.old section.0 || leaf_wants section leaf) }
    ensures counts { OnOk result ((section : SectionId) → count_in counts.new section.0
        ≡ count_in counts.old section.0 + cond (not (contains nat_eq seen.old section.0) && leaf_wants section leaf) 1 0) }
{
    if !lacks_places(leaf.0) {
        return Ok(());
    }
    if seen.insert(leaf.1)? {
        counts.add(leaf.1)
    } else {
        Ok(())
    }
}
