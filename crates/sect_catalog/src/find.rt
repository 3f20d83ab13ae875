// What stands at a place of the rows, and nothing where there is no place.

ghost use Rattle.std.specs.Prelude.{◌≡◌, slice_get, option_copied};
ghost use Rattle.std.specs.Option.{option_map, option_and_then};
ghost use Rattle.sect_catalog.specs.Place.{config_at as config_of, section_at as section_of, course_at as course_of};

use crate::place::Place;
use crate::row::{ConfigRow, CourseRow, OfferingRow, SectionRow};

/// The offering at a place of the rows.
pub fn offering_at(rows: &[OfferingRow], at: Option<Place>) -> Option<&OfferingRow>
    ensures { option_copied result ≡ option_and_then (λ at. slice_get rows.now at.row) at }
{
    rows.get(at?.row)
}

/// The configuration at a place of the rows.
pub fn config_at(rows: &[OfferingRow], at: Option<Place>) -> Option<&ConfigRow>
    ensures { option_copied result ≡ option_and_then (config_of rows.now) at }
{
    let at = at?;
    let row = rows.get(at.row)?;
    row.configs.as_slice().get(at.config)
}

/// The section at a place of the rows.
pub fn section_at(rows: &[OfferingRow], at: Option<Place>) -> Option<&SectionRow>
    ensures { option_copied result ≡ option_and_then (section_of rows.now) at }
{
    let config = config_at(rows, at)?;
    let at = at?;
    let subpart = config.subparts.as_slice().get(at.subpart)?;
    subpart.sections.as_slice().get(at.section)
}

/// The course at a place of the rows, with its offering.
#[inline(always)]
pub fn course_at(rows: &[OfferingRow], at: Option<Place>) -> Option<(&OfferingRow, &CourseRow)>
    ensures { option_map (λ found. (found.0.now, found.1.now)) result ≡ option_and_then (course_of rows.now) at }
{
    let at = at?;
    let row = rows.get(at.row)?;
    let course = row.courses.as_slice().get(at.config)?;
    Some((row, course))
}
