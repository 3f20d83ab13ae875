// Why a row is refused, but for what only the catalogue knows.

ghost use Rattle.std.specs.Prelude.{◌≡◌, ℕ, not, List, ◌==◌, length, flat_map, find, [], option_copied};
ghost use Rattle.std.specs.List.{list_any};
ghost use Rattle.std.specs.Option.{option_map};
ghost use Rattle.sect_catalog.specs.Catalogue.{sections_in};
ghost use Rattle.sect_catalog.specs.Fault.{bad_parent_after, bad_parent as bad_parent_of};
ghost use Rattle.sect_catalog.specs.Search.{
  lacks_parent as parent_lacks,
  missing_part as part_missing,
  bare_config as config_is_bare,
  bare_subpart as subpart_is_bare,
};

use crate::row::{CatalogFault, ConfigRow, OfferingRow, SectionRow, SubpartRow};
use sect_base::SectionId;

/// The first part that the row lacks.
pub fn missing_part(row: &OfferingRow) -> Option<CatalogFault>
    ensures { result ≡ part_missing row.now }
{
    if row.courses.len() == 0 {
        return Some(CatalogFault::NoCourse);
    }
    let configs = row.configs.as_slice();
    if configs.len() == 0 {
        return Some(CatalogFault::NoConfig);
    }
    if let Some(fault) = bare_config(configs) {
        return Some(fault);
    }
    bare_subpart(configs)
}

/// The first configuration that has no subpart.
fn bare_config(configs: &[ConfigRow]) -> Option<CatalogFault>
    ensures { result ≡ config_is_bare configs.now }
{
    let config = configs.iter().find(|config| config.subparts.len() == 0)?;
    Some(CatalogFault::NoSubpart(config.id.0))
}

/// The first subpart that has no section.
fn bare_subpart(configs: &[ConfigRow]) -> Option<CatalogFault>
    ensures { result ≡ subpart_is_bare (flat_map (λ g. g.subparts) configs.now) }
{
    for config in configs {
        if let Some(fault) = bare_subpart_of(config.subparts.as_slice()) {
            return Some(fault);
        }
    }
    None
}

/// The fault of the first subpart without a section.
fn bare_subpart_of(subparts: &[SubpartRow]) -> Option<CatalogFault>
    ensures { result ≡ subpart_is_bare subparts.now }
{
    let subpart = subparts.iter().find(|subpart| subpart.sections.len() == 0)?;
    Some(CatalogFault::NoSection(subpart.id.0))
}

/// The first section whose parent isn't in an earlier subpart of its configuration.
pub fn bad_parent(configs: &[ConfigRow]) -> Option<u32>
    ensures { result ≡ bad_parent_of configs.now }
{
    for config in configs {
        if let Some(id) = bad_parent_in(config.subparts.as_slice()) {
            return Some(id);
        }
    }
    None
}

/// The first section whose parent stands in no earlier subpart of the configuration.
fn bad_parent_in(subparts: &[SubpartRow]) -> Option<u32>
    ensures { result ≡ bad_parent_after [] subparts.now }
{
    for (number, subpart) in subparts.iter().enumerate() {
        if let Some(id) = first_orphan(&subparts[..number], subpart) {
            return Some(id);
        }
    }
    None
}

/// The first section of the subpart whose parent isn't in the earlier ones.
fn first_orphan(earlier: &[SubpartRow], subpart: &SubpartRow) -> Option<u32>
    ensures { result ≡ option_map (λ s. s.id.0) (find (parent_lacks earlier.now) subpart.now.sections) }
{
    let sections = subpart.sections.as_slice();
    let section = sections
        .iter()
        .find(|section| lacks_parent(earlier, section))?;
    Some(section.id.0)
}

/// Whether the section names a parent that isn't in the earlier subparts.
fn lacks_parent(earlier: &[SubpartRow], section: &SectionRow) -> bool
    ensures { result ≡ parent_lacks earlier.now section.now }
{
    match section.parent {
        Some(parent) => !stands_in(earlier, parent),
        None => false,
    }
}

/// Whether a section of this id stands in the subparts.
fn stands_in(subparts: &[SubpartRow], id: SectionId) -> bool
    ensures { result ≡ list_any (λ e. e.id.0 == id.0) (sections_in subparts.now) }
{
    any_has(subparts, id)
}

/// Whether any of the subparts has a section of this id.
fn any_has(subparts: &[SubpartRow], id: SectionId) -> bool
    ensures { result ≡ list_any (λ p. list_any (λ e. e.id.0 == id.0) p.sections) subparts.now }
{
    subparts.iter().any(|subpart| has_section(subpart, id))
}

/// Whether the subpart has a section of this id.
fn has_section(subpart: &SubpartRow, id: SectionId) -> bool
    ensures { result ≡ list_any (λ e. e.id.0 == id.0) subpart.now.sections }
{
    subpart
        .sections
        .as_slice()
        .iter()
        .any(|section| section.id == id)
}
