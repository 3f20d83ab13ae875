// How often an id stands in a row: a count that stops at two.

ghost use Rattle.std.specs.Prelude.{◌≡◌, ℕ, min, ◌+◌, ◌≤◌, ◌∷◌, [], map, flat_map};
ghost use Rattle.sect_catalog.specs.Fault.{subpart_ids, config_ids, row_ids};
ghost use Rattle.sect_catalog.specs.Search.{times_in};

use crate::place::Key;
use crate::row::{ConfigRow, CourseRow, OfferingRow, SubpartRow};

/// The sum of two counts, and 2 where it is more.
fn up_to_two(first: usize, second: usize) -> usize
    requires { (first ≤ 2) × (second ≤ 2) }
    ensures { result ≡ min 2 (first + second) }
{
    (first + second).min(2)
}

/// 1 where the ids are the same, else 0.
fn once(id: Key, other: Key) -> usize
    ensures { result ≡ times_in (other ∷ []) id }
{
    if id == other { 1 } else { 0 }
}

/// How often the id stands in the row, at most 2.
pub fn times_in_row(row: &OfferingRow, id: Key) -> usize
    ensures { result ≡ times_in (row_ids row.now) id }
{
    let own = once(id, (0, row.id.0));
    let courses = times_in_courses(row.courses.as_slice(), id);
    let configs = times_in_configs(row.configs.as_slice(), id);
    up_to_two(own, up_to_two(courses, configs))
}

/// How often the id is one of the courses', at most 2.
fn times_in_courses(courses: &[CourseRow], id: Key) -> usize
    ensures { result ≡ times_in (map (λ c. (1, c.id.0)) courses.now) id }
{
    let mut times = 0;
    for course in courses {
        times = up_to_two(times, once(id, (1, course.id.0)));
    }
    times
}

/// How often the id stands in the configurations, at most 2.
fn times_in_configs(configs: &[ConfigRow], id: Key) -> usize
    ensures { result ≡ times_in (flat_map config_ids configs.now) id }
{
    let mut times = 0;
    for config in configs {
        times = up_to_two(times, times_in_config(config, id));
    }
    times
}

/// How often the id stands in a configuration, at most 2.
fn times_in_config(config: &ConfigRow, id: Key) -> usize
    ensures { result ≡ times_in (config_ids config.now) id }
{
    let mut times = once(id, (2, config.id.0));
    for subpart in config.subparts.as_slice() {
        times = up_to_two(times, times_in_subpart(subpart, id));
    }
    times
}

/// How often the id stands in a subpart, at most 2.
fn times_in_subpart(subpart: &SubpartRow, id: Key) -> usize
    ensures { result ≡ times_in (subpart_ids subpart.now) id }
{
    let mut times = once(id, (3, subpart.id.0));
    for section in subpart.sections.as_slice() {
        times = up_to_two(times, once(id, (4, section.id.0)));
    }
    times
}
