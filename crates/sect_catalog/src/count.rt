// The counts of a row against their limits.

ghost use Rattle.std.specs.Prelude.{◌≡◌, ℕ, ◌+◌, ◌-◌, ◌^◌, min, List, ◌∷◌, [], length, map, flat_map, ◌≤◌};
ghost use Rattle.sect_catalog.specs.Catalogue.{sections_in};
ghost use Rattle.sect_catalog.specs.Search.{too_many_of, count_fault as fault_of_counts};

use crate::row::{CatalogFault, ConfigRow, OfferingRow, SubpartRow};
use sect_base::capped;

/// The most courses of an offering, configurations of an offering, subparts of a
/// configuration, sections of a subpart, meetings of a section, and sections in all.
pub const MOST_COURSES: usize = 10;

pub const MOST_CONFIGS: usize = 10;

pub const MOST_SUBPARTS: usize = 6;

pub const MOST_SECTIONS: usize = 200;

pub const MOST_MEETINGS: usize = 8;

pub const MOST_SECTIONS_IN_ALL: usize = 20_000;

/// The first count of the row that is above its limit, beside so many sections of others.
pub fn count_fault(row: &OfferingRow, sections: usize) -> Option<CatalogFault>
    ensures { result ≡ fault_of_counts sections row.now }
{
    if let Some(fault) = above(MOST_COURSES, row.courses.len()) {
        return Some(fault);
    }
    let configs = row.configs.as_slice();
    if let Some(fault) = above(MOST_CONFIGS, configs.len()) {
        return Some(fault);
    }
    if let Some(fault) = many_subparts(configs) {
        return Some(fault);
    }
    if let Some(fault) = many_sections(configs) {
        return Some(fault);
    }
    if let Some(fault) = many_meetings(configs) {
        return Some(fault);
    }
    many_in_all(configs, sections)
}

/// The count, told as a fault, where it is above the limit.
fn above(limit: usize, count: usize) -> Option<CatalogFault>
    ensures { result ≡ too_many_of limit (count ∷ []) }
{
    if limit < count {
        return Some(CatalogFault::TooMany(capped(count)));
    }
    None
}

/// The fault of the first configuration with too many subparts.
fn many_subparts(configs: &[ConfigRow]) -> Option<CatalogFault>
    ensures { result ≡ too_many_of 6 (map (λ g. length g.subparts) configs.now) }
{
    for config in configs {
        if let Some(fault) = above(MOST_SUBPARTS, config.subparts.len()) {
            return Some(fault);
        }
    }
    None
}

/// The fault of the configurations' first subpart with too many sections.
fn many_sections(configs: &[ConfigRow]) -> Option<CatalogFault>
    ensures { result ≡ too_many_of 200 (map (λ p. length p.sections) (flat_map (λ g. g.subparts) configs.now)) }
{
    for config in configs {
        if let Some(fault) = many_sections_of(config.subparts.as_slice()) {
            return Some(fault);
        }
    }
    None
}

/// The fault of the first subpart with too many sections.
fn many_sections_of(subparts: &[SubpartRow]) -> Option<CatalogFault>
    ensures { result ≡ too_many_of 200 (map (λ p. length p.sections) subparts.now) }
{
    for subpart in subparts {
        if let Some(fault) = above(MOST_SECTIONS, subpart.sections.len()) {
            return Some(fault);
        }
    }
    None
}

/// The fault of the configurations' first section with too many meetings.
fn many_meetings(configs: &[ConfigRow]) -> Option<CatalogFault>
    ensures { result ≡ too_many_of 8 (map (λ s. length s.meetings) (sections_in (flat_map (λ g. g.subparts) configs.now))) }
{
    for config in configs {
        if let Some(fault) = many_meetings_of(config.subparts.as_slice()) {
            return Some(fault);
        }
    }
    None
}

/// The fault of the subparts' first section with too many meetings.
fn many_meetings_of(subparts: &[SubpartRow]) -> Option<CatalogFault>
    ensures { result ≡ too_many_of 8 (map (λ s. length s.meetings) (sections_in subparts.now)) }
{
    for subpart in subparts {
        if let Some(fault) = many_meetings_in(subpart) {
            return Some(fault);
        }
    }
    None
}

/// The fault of a subpart's first section with too many meetings.
fn many_meetings_in(subpart: &SubpartRow) -> Option<CatalogFault>
    ensures { result ≡ too_many_of 8 (map (λ s. length s.meetings) subpart.now.sections) }
{
    for section in subpart.sections.as_slice() {
        if let Some(fault) = above(MOST_MEETINGS, section.meetings.len()) {
            return Some(fault);
        }
    }
    None
}

/// The fault of too many sections in all: those of the configurations and so many others.
fn many_in_all(configs: &[ConfigRow], others: usize) -> Option<CatalogFault>
    ensures { result ≡ too_many_of 20000 ((others + length (sections_in (flat_map (λ g. g.subparts) configs.now))) ∷ []) }
{
    above(
        MOST_SECTIONS_IN_ALL,
        others.saturating_add(sections(configs)),
    )
}

/// The number of sections, and the largest number of its type where they are more.
pub fn sections(configs: &[ConfigRow]) -> usize
    ensures { result ≡ min (length (sections_in (flat_map (λ g. g.subparts) configs.now))) (2 ^ 64 - 1) }
{
    let mut count = 0usize;
    for config in configs {
        count = count.saturating_add(sections_of(config.subparts.as_slice()));
    }
    count
}

/// The number of the subparts' sections, or the largest number.
fn sections_of(subparts: &[SubpartRow]) -> usize
    ensures { result ≡ min (length (sections_in subparts.now)) (2 ^ 64 - 1) }
{
    let mut count = 0usize;
    for subpart in subparts {
        count = count.saturating_add(subpart.sections.len());
    }
    count
}
