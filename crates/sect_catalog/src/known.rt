// The first id of a row that is known already, or stands twice in the row.

ghost use Rattle.std.specs.Prelude.{◌≡◌, true, find, map, flat_map};
ghost use Rattle.std.specs.Option.{option_map};
ghost use Rattle.sect_catalog.specs.Fault.{subpart_ids, config_ids, row_ids};
ghost use Rattle.sect_catalog.specs.Apart.{AreApart};
ghost use Rattle.sect_catalog.specs.Place.{is_taken as taken_of};

use crate::apart::ids_rise;
use crate::index::Index;
use crate::place::Key;
use crate::row::{ConfigRow, CourseRow, OfferingRow, SectionRow, SubpartRow};
use crate::times::times_in_row;

/// The first id of the row that is in the index, or stands twice in the row.
pub fn known_id(index: &Index, row: &OfferingRow) -> Option<u32>
    ensures { result ≡ option_map (λ id. id.1) (find (taken_of index.now row.now) (row_ids row.now)) }
{
    let apart = ids_rise(row);
    if is_taken(index, row, apart, (0, row.id.0)) {
        return Some(row.id.0);
    }
    if let Some(id) = known_course(index, row, apart, row.courses.as_slice()) {
        return Some(id);
    }
    known_in_configs(index, row, apart, row.configs.as_slice())
}

/// Whether the index has the id, or the row has it twice, which isn't asked where its ids are known to be apart.
fn is_taken(index: &Index, row: &OfferingRow, apart: bool, id: Key) -> bool
    requires { apart ≡ true → AreApart row.now }
    ensures { result ≡ taken_of index.now row.now id }
{
    index.has(id) || !apart && times_in_row(row, id) > 1
}

/// The first of the courses' ids that is taken.
fn known_course(index: &Index, row: &OfferingRow, apart: bool, courses: &[CourseRow]) -> Option<u32>
    requires { apart ≡ true → AreApart row.now }
    ensures { result ≡ option_map (λ id. id.1) (find (taken_of index.now row.now) (map (λ c. (1, c.id.0)) courses.now)) }
{
    for course in courses {
        if is_taken(index, row, apart, (1, course.id.0)) {
            return Some(course.id.0);
        }
    }
    None
}

/// The first id of the configurations, and of what they hold, that is taken.
fn known_in_configs(
    index: &Index,
    row: &OfferingRow,
    apart: bool,
    configs: &[ConfigRow],
) -> Option<u32>
    requires { apart ≡ true → AreApart row.now }
    ensures { result ≡ option_map (λ id. id.1) (find (taken_of index.now row.now) (flat_map config_ids configs.now)) }
{
    for config in configs {
        if let Some(id) = known_in_config(index, row, apart, config) {
            return Some(id);
        }
    }
    None
}

/// The first id of a configuration, and of what it holds, that is taken.
fn known_in_config(index: &Index, row: &OfferingRow, apart: bool, config: &ConfigRow) -> Option<u32>
    requires { apart ≡ true → AreApart row.now }
    ensures { result ≡ option_map (λ id. id.1) (find (taken_of index.now row.now) (config_ids config.now)) }
{
    if is_taken(index, row, apart, (2, config.id.0)) {
        return Some(config.id.0);
    }
    known_in_subparts(index, row, apart, config.subparts.as_slice())
}

/// The first id of the subparts and their sections that is taken.
fn known_in_subparts(
    index: &Index,
    row: &OfferingRow,
    apart: bool,
    subparts: &[SubpartRow],
) -> Option<u32>
    requires { apart ≡ true → AreApart row.now }
    ensures { result ≡ option_map (λ id. id.1) (find (taken_of index.now row.now) (flat_map subpart_ids subparts.now)) }
{
    for subpart in subparts {
        if let Some(id) = known_in_subpart(index, row, apart, subpart) {
            return Some(id);
        }
    }
    None
}

/// The first id of a subpart and its sections that is taken.
fn known_in_subpart(
    index: &Index,
    row: &OfferingRow,
    apart: bool,
    subpart: &SubpartRow,
) -> Option<u32>
    requires { apart ≡ true → AreApart row.now }
    ensures { result ≡ option_map (λ id. id.1) (find (taken_of index.now row.now) (subpart_ids subpart.now)) }
{
    if is_taken(index, row, apart, (3, subpart.id.0)) {
        return Some(subpart.id.0);
    }
    known_section(index, row, apart, subpart.sections.as_slice())
}

/// The first of the sections' ids that is taken.
fn known_section(
    index: &Index,
    row: &OfferingRow,
    apart: bool,
    sections: &[SectionRow],
) -> Option<u32>
    requires { apart ≡ true → AreApart row.now }
    ensures { result ≡ option_map (λ id. id.1) (find (taken_of index.now row.now) (map (λ s. (4, s.id.0)) sections.now)) }
{
    for section in sections {
        if is_taken(index, row, apart, (4, section.id.0)) {
            return Some(section.id.0);
        }
    }
    None
}
