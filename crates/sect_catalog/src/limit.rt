// Another limit at a place of the rows.

ghost use Rattle.std.specs.Prelude.{◌≡◌};
ghost use Rattle.sect_catalog.specs.Limits.{
  change_at,
  put_course as with_course,
  put_config as with_config,
  put_section as with_section,
  put_in_config as within_config,
  put_in_subpart as within_subpart,
  put_at as with_cap,
  cap_key as key_of,
};

use crate::place::{Key, Kind, Place, key};
use crate::row::{ConfigRow, OfferingRow, SubpartRow};
use sect_base::{Cap, Limit};

/// The kind and the number of what has the limit.
pub fn cap_key(cap: Cap) -> Key
    ensures { result ≡ key_of cap }
{
    match cap {
        Cap::Course(id) => key(Kind::Course, id.0),
        Cap::Config(id) => key(Kind::Config, id.0),
        Cap::Section(id) => key(Kind::Section, id.0),
    }
}

/// Puts the limit at the place.
pub fn put_at(rows: &mut Vec<OfferingRow>, cap: Cap, limit: Limit, at: Place)
    ensures { rows.new.items ≡ change_at at.row (with_cap cap limit at) rows.old.items }
{
    if let Some(row) = rows.get_mut(at.row) {
        put_in_row(row, cap, limit, at);
    }
}

/// Gives the course, configuration or section at this place of a row its new limit.
fn put_in_row(row: &mut OfferingRow, cap: Cap, limit: Limit, at: Place)
    ensures { row.new ≡ with_cap cap limit at row.old }
{
    match cap {
        Cap::Course(_) => put_course(row, limit, at),
        Cap::Config(_) => put_config(row, limit, at),
        Cap::Section(_) => put_section(row, limit, at),
    }
}

/// Gives the course at this place of a row its new limit.
fn put_course(row: &mut OfferingRow, limit: Limit, at: Place)
    ensures { row.new ≡ with_course limit at row.old }
{
    if let Some(course) = row.courses.get_mut(at.config) {
        course.limit = limit;
    }
}

/// Gives the configuration at this place of a row its new limit.
fn put_config(row: &mut OfferingRow, limit: Limit, at: Place)
    ensures { row.new ≡ with_config limit at row.old }
{
    if let Some(config) = row.configs.get_mut(at.config) {
        config.limit = limit;
    }
}

/// Gives the section at this place of a row its new limit.
fn put_section(row: &mut OfferingRow, limit: Limit, at: Place)
    ensures { row.new ≡ with_section limit at row.old }
{
    if let Some(config) = row.configs.get_mut(at.config) {
        put_in_config(config, limit, at);
    }
}

/// Gives the section at this place of a configuration its new limit.
fn put_in_config(config: &mut ConfigRow, limit: Limit, at: Place)
    ensures { config.new ≡ within_config limit at config.old }
{
    if let Some(subpart) = config.subparts.get_mut(at.subpart) {
        put_in_subpart(subpart, limit, at);
    }
}

/// Gives the section at this place of a subpart its new limit.
fn put_in_subpart(subpart: &mut SubpartRow, limit: Limit, at: Place)
    ensures { subpart.new ≡ within_subpart limit at subpart.old }
{
    if let Some(section) = subpart.sections.get_mut(at.section) {
        section.limit = limit;
    }
}
