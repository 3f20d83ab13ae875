// Whether the ids of a row rise within their kinds, told in one pass: then none of them stands twice.

ghost use Rattle.std.specs.Prelude.{◌≡◌, true, map, flat_map};
ghost use Rattle.sect_catalog.specs.Fault.{subpart_ids, config_ids, row_ids};
ghost use Rattle.sect_catalog.specs.Apart.{past as past_of, past_all, no_floors, AreApart};

use crate::place::Key;
use crate::row::{ConfigRow, CourseRow, OfferingRow, SubpartRow};

/// The least id of each kind that would still rise, by the kind's number.
type Floors = [u64; 5];

/// Whether the ids of each kind rise strictly in the row's order. Where they do, no id stands twice.
pub fn ids_rise(row: &OfferingRow) -> bool
    ensures { result ≡ true → AreApart row.now }
{
    past_row(row).is_some()
}

/// The floors behind the row's ids. None where one of them doesn't rise.
fn past_row(row: &OfferingRow) -> Option<Floors>
    ensures { result ≡ past_all no_floors (row_ids row.now) }
{
    let floors = past([0; 5], (0, row.id.0))?;
    let floors = past_courses(floors, row.courses.as_slice())?;
    past_configs(floors, row.configs.as_slice())
}

/// The floors behind one id. None where it doesn't rise.
fn past(floors: Floors, id: Key) -> Option<Floors>
    ensures { result ≡ past_of floors id }
{
    let kind = usize::from(id.0);
    let floor = *floors.get(kind)?;
    let own = u64::from(id.1);
    if own < floor {
        return None;
    }
    let mut floors = floors;
    floors[kind] = own + 1;
    Some(floors)
}

/// The floors behind the courses' ids. None where one of them doesn't rise.
fn past_courses(floors: Floors, courses: &[CourseRow]) -> Option<Floors>
    ensures { result ≡ past_all floors (map (λ c. (1, c.id.0)) courses.now) }
{
    let mut floors = floors;
    for course in courses {
        floors = past(floors, (1, course.id.0))?;
    }
    Some(floors)
}

/// The floors behind the ids of the configurations and of what they hold. None where one of them doesn't rise.
fn past_configs(floors: Floors, configs: &[ConfigRow]) -> Option<Floors>
    ensures { result ≡ past_all floors (flat_map config_ids configs.now) }
{
    let mut floors = floors;
    for config in configs {
        floors = past_config(floors, config)?;
    }
    Some(floors)
}

/// The floors behind the ids of a configuration and of what it holds. None where one of them doesn't rise.
fn past_config(floors: Floors, config: &ConfigRow) -> Option<Floors>
    ensures { result ≡ past_all floors (config_ids config.now) }
{
    let mut floors = past(floors, (2, config.id.0))?;
    for subpart in config.subparts.as_slice() {
        floors = past_subpart(floors, subpart)?;
    }
    Some(floors)
}

/// The floors behind the ids of a subpart and of its sections. None where one of them doesn't rise.
fn past_subpart(floors: Floors, subpart: &SubpartRow) -> Option<Floors>
    ensures { result ≡ past_all floors (subpart_ids subpart.now) }
{
    let mut floors = past(floors, (3, subpart.id.0))?;
    for section in subpart.sections.as_slice() {
        floors = past(floors, (4, section.id.0))?;
    }
    Some(floors)
}
