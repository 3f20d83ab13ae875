// Faults of the rows of reservations and restrictions.

ghost use Rattle.std.specs.Prelude.{◌≡◌, not, ◌==◌, ◌&&◌, find, map};
ghost use Rattle.std.specs.List.{list_any};
ghost use Rattle.std.specs.Option.{option_map};
ghost use Rattle.sect_catalog.specs.Catalogue.{sections_in, has_course as is_course_of};
ghost use Rattle.sect_model.specs.Refusals.{
  lists_config as has_listed,
  section_fits as is_section_of,
  foreign_course as course_fault,
  foreign_in as foreign_of,
  students_listed as count_listed,
  is_group as is_a_group,
  reserve_fault_of,
  row_refusal as refusal_of_row,
};

use sect_base::{ConfigId, CourseId, SectionId, capped};
use sect_catalog::{ConfigRow, OfferingRow, SubpartRow};
use sect_command::{Refusal, RowFault};
use sect_reserve::{Audience, ReserveFault};

/// The most students that an audience lists.
const MOST_STUDENTS: usize = 1_000;

/// The most sections that a row lists.
const MOST_SECTIONS: usize = 1_200;

/// The fault of a row as a refusal.
pub fn row_refusal(fault: Option<ReserveFault>) -> Option<Refusal>
    ensures { result ≡ refusal_of_row fault }
{
    Some(Refusal::Row(RowFault::Reserve(fault?)))
}

/// The first fault of a row, with whether its id is in use and whether a group may be its audience.
pub fn reserve_fault(
    offering: &OfferingRow,
    id: u32,
    in_use: bool,
    groups: bool,
    audience: &Audience,
    configs: &[ConfigId],
    sections: &[SectionId],
) -> Option<ReserveFault>
    ensures { result ≡ reserve_fault_of offering.now id in_use groups audience.now configs.now sections.now }
{
    if in_use {
        return Some(ReserveFault::Known(id));
    }
    if let Some(id) = foreign_in(offering, audience, configs, sections) {
        return Some(ReserveFault::Foreign(id));
    }
    if !groups && is_group(audience) {
        return Some(ReserveFault::NoGroup);
    }
    if students_listed(audience) > MOST_STUDENTS {
        return Some(ReserveFault::TooMany(capped(students_listed(audience))));
    }
    if sections.len() > MOST_SECTIONS {
        return Some(ReserveFault::TooMany(capped(sections.len())));
    }
    None
}

/// The first listed configuration, section or audience's course that isn't the offering's, or section whose configuration
/// isn't listed.
fn foreign_in(
    offering: &OfferingRow,
    audience: &Audience,
    configs: &[ConfigId],
    sections: &[SectionId],
) -> Option<u32>
    ensures { result ≡ foreign_of offering.now audience.now configs.now sections.now }
{
    if let Some(id) = foreign_config(offering, configs) {
        return Some(id.0);
    }
    if let Some(id) = foreign_section(offering, configs, sections) {
        return Some(id.0);
    }
    foreign_course(offering, audience)
}

/// The first configuration that isn't the offering's.
fn foreign_config(offering: &OfferingRow, configs: &[ConfigId]) -> Option<ConfigId>
    ensures { result ≡ find (λ c. not (has_listed (map (λ g. g.id) offering.now.configs) c)) configs.now }
{
    for config in configs {
        if !has_config(offering.configs.as_slice(), *config) {
            return Some(*config);
        }
    }
    None
}

/// Whether the configuration is one of these rows.
fn has_config(rows: &[ConfigRow], id: ConfigId) -> bool
    ensures { result ≡ has_listed (map (λ g. g.id) rows.now) id }
{
    rows.iter().map(|row| row.id).any(|other| other == id)
}

/// The first section that stands in no listed configuration of the offering.
fn foreign_section(
    offering: &OfferingRow,
    configs: &[ConfigId],
    sections: &[SectionId],
) -> Option<SectionId>
    ensures { result ≡ find (λ s. not (is_section_of offering.now configs.now s)) sections.now }
{
    for section in sections {
        if !section_fits(offering, configs, *section) {
            return Some(*section);
        }
    }
    None
}

/// Whether the section stands in a configuration of the offering that is listed.
fn section_fits(offering: &OfferingRow, configs: &[ConfigId], section: SectionId) -> bool
    ensures { result ≡ is_section_of offering.now configs.now section }
{
    offering
        .configs
        .as_slice()
        .iter()
        .any(|config| has_in_listed(config, configs, section))
}

/// Whether the configuration is listed and has the section.
fn has_in_listed(config: &ConfigRow, configs: &[ConfigId], section: SectionId) -> bool
    ensures { result ≡ has_listed configs.now config.now.id && list_any (λ s. s.id.0 == section.0) (sections_in config.now.subparts) }
{
    configs.contains(&config.id) && has_section(config.subparts.as_slice(), section)
}

/// Whether one of the subparts has the section.
fn has_section(subparts: &[SubpartRow], id: SectionId) -> bool
    ensures { result ≡ list_any (λ s. s.id.0 == id.0) (sections_in subparts.now) }
{
    subparts
        .iter()
        .flat_map(|subpart| subpart.sections.as_slice())
        .any(|section| section.id == id)
}

/// An audience's course that isn't the offering's.
fn foreign_course(offering: &OfferingRow, audience: &Audience) -> Option<u32>
    ensures { result ≡ course_fault offering.now audience.now }
{
    match audience {
        Audience::Course(id) if !has_course(offering, *id) => Some(id.0),
        _ => None,
    }
}

/// Whether the course is the offering's.
fn has_course(offering: &OfferingRow, id: CourseId) -> bool
    ensures { result ≡ is_course_of offering.now id }
{
    offering.courses.as_slice().iter().any(|row| row.id == id)
}

/// How many students an audience lists.
fn students_listed(audience: &Audience) -> usize
    ensures { result ≡ count_listed audience.now }
{
    match audience {
        Audience::Students(ids) => ids.len(),
        _ => 0,
    }
}

/// Whether the audience is a group.
fn is_group(audience: &Audience) -> bool
    ensures { result ≡ is_a_group audience.now }
{
    matches!(audience, Audience::Group(_))
}
