// The sections of the catalogue.

ghost use Rattle.std.specs.Prelude.{◌≡◌, ◌++◌, map, flat_map, IfOk, OnOk};
ghost use Rattle.sect_people.specs.Order.{sorted_by};
ghost use Rattle.sect_catalog.specs.Catalogue.{sections_in, all_sections};

use sect_base::{Memory, SectionId};
use sect_catalog::{ConfigRow, OfferingRow, SectionRow, SubpartRow};
use std::alloc::Global;

/// The ids of the sections, in rising order.
pub fn section_ids(alloc: Global, rows: &[OfferingRow]) -> Result<Vec<SectionId>, Memory>
    ensures { IfOk result (λ ids. ids.items ≡ map (λ s. s.id) (sorted_by (λ s. s.id.0) (all_sections rows.now))) }
{
    let mut ids = Vec::new(alloc);
    for row in rows {
        add_configs(row.configs.as_slice(), &mut ids)?;
    }
    ids.sort_unstable();
    Ok(ids)
}

/// Puts the ids of the configurations' sections behind the others.
fn add_configs(configs: &[ConfigRow], ids: &mut Vec<SectionId>) -> Result<(), Memory>
    ensures { OnOk result (ids.new.items ≡ ids.old.items ++ map (λ s. s.id) (sections_in (flat_map (λ g. g.subparts) configs.now))) }
{
    for config in configs {
        add_subparts(config.subparts.as_slice(), ids)?;
    }
    Ok(())
}

/// Puts the ids of the subparts' sections behind the others.
fn add_subparts(subparts: &[SubpartRow], ids: &mut Vec<SectionId>) -> Result<(), Memory>
    ensures { OnOk result (ids.new.items ≡ ids.old.items ++ map (λ s. s.id) (sections_in subparts.now)) }
{
    for subpart in subparts {
        add_sections(subpart.sections.as_slice(), ids)?;
    }
    Ok(())
}

/// Puts the ids of the sections behind the others.
fn add_sections(sections: &[SectionRow], ids: &mut Vec<SectionId>) -> Result<(), Memory>
    ensures { OnOk result (ids.new.items ≡ ids.old.items ++ map (λ s. s.id) sections.now) }
{
    for section in sections {
        ids.push(section.id)?;
    }
    Ok(())
}
