// What was counted, in order.

ghost use Rattle.std.specs.Prelude.{◌≡◌, ◌++◌, filter_map, IfOk, OnOk};
ghost use Rattle.std.specs.Option.{option_to_list};
ghost use Rattle.sect_base.specs.Tree.{rule_number, all_rules};
ghost use Rattle.sect_survey.specs.Sums.{counted};
ghost use Rattle.sect_survey.specs.Counted.{count_in};

use crate::counts::Counts;
use sect_base::{Items, Memory, SectionId};
use std::alloc::Global;

/// Each rule that was counted, in order, with its count.
pub fn rule_sums(alloc: Global, leaves: &Counts) -> Result<Items<(u8, u32)>, Memory>
    ensures { IfOk result (λ sums. sums ≡ filter_map (λ rule. counted (rule_number rule) (count_in leaves.now (rule_number rule))) all_rules) }
{
    let mut sums = Vec::new(alloc);
    for rule in 1..21u8 {
        add_counted(&mut sums, rule, leaves.get(u32::from(rule)))?;
    }
    Ok(Items::from_vec(sums))
}

/// Each of the sections that was counted, with its count.
pub fn section_sums(
    alloc: Global,
    sections: &[SectionId],
    lines: &Counts,
) -> Result<Items<(SectionId, u32)>, Memory>
    ensures { IfOk result (λ sums. sums ≡ filter_map (λ section. counted section (count_in lines.now section.0)) sections.now) }
{
    let mut sums = Vec::new(alloc);
    for section in sections {
        add_counted(&mut sums, *section, lines.get(section.0))?;
    }
    Ok(Items::from_vec(sums))
}

/// Puts a key with its count behind the others, where that is above 0.
fn add_counted<K: Copy>(sums: &mut Vec<(K, u32)>, key: K, count: u32) -> Result<(), Memory>
    ensures { OnOk result (sums.new.items ≡ sums.old.items ++ option_to_list (counted key count)) }
{
    if count > 0 {
        sums.push((key, count))?;
    }
    Ok(())
}
