// The times at which a student is taught.

ghost use Rattle.std.specs.Prelude.{◌≡◌, ◌++◌, OnOk, IfOk, map};
ghost use Rattle.sect_model.specs.Choice.{lists_section};
ghost use Rattle.sect_shown.specs.Hours.{
  choice_hours,
  config_hours,
  hours_of as hours_of_rows,
  offering_hours,
  section_hours,
  subpart_hours,
};

use crate::hour::Hour;
use sect_base::{Choice, CourseId, Memory, SectionId};
use sect_catalog::{ConfigRow, OfferingRow, SectionRow, SubpartRow};
use std::alloc::Global;

/// The hours of the choices, in the order of the offerings.
pub fn hours_of(alloc: Global, rows: &[OfferingRow], held: &[Choice]) -> Result<Vec<Hour>, Memory>
    ensures { IfOk result (λ hours. hours.items ≡ hours_of_rows rows.now held.now) }
{
    let mut hours = Vec::new(alloc);
    for row in rows {
        add_offering(row, held, &mut hours)?;
    }
    Ok(hours)
}

/// Adds the hours of the choices in an offering.
fn add_offering(row: &OfferingRow, held: &[Choice], hours: &mut Vec<Hour>) -> Result<(), Memory>
    ensures { OnOk result (hours.new.items ≡ hours.old.items ++ offering_hours held.now row.now) }
{
    for config in row.configs.as_slice() {
        add_config(config, held, hours)?;
    }
    Ok(())
}

/// Adds the hours of the choices in a configuration.
fn add_config(row: &ConfigRow, held: &[Choice], hours: &mut Vec<Hour>) -> Result<(), Memory>
    ensures { OnOk result (hours.new.items ≡ hours.old.items ++ config_hours held.now row.now) }
{
    for subpart in row.subparts.as_slice() {
        add_subpart(subpart, held, hours)?;
    }
    Ok(())
}

/// Adds the hours of the choices in a subpart.
fn add_subpart(row: &SubpartRow, held: &[Choice], hours: &mut Vec<Hour>) -> Result<(), Memory>
    ensures { OnOk result (hours.new.items ≡ hours.old.items ++ subpart_hours held.now row.now) }
{
    for section in row.sections.as_slice() {
        add_section(section, held, hours)?;
    }
    Ok(())
}

/// Adds the hours of the choices in a section.
fn add_section(row: &SectionRow, held: &[Choice], hours: &mut Vec<Hour>) -> Result<(), Memory>
    ensures { OnOk result (hours.new.items ≡ hours.old.items ++ section_hours held.now row.now) }
{
    for choice in held {
        add_choice(row, choice, hours)?;
    }
    Ok(())
}

/// Adds the hours of a choice in the section, where it takes it.
fn add_choice(row: &SectionRow, choice: &Choice, hours: &mut Vec<Hour>) -> Result<(), Memory>
    ensures { OnOk result (hours.new.items ≡ hours.old.items ++ choice_hours row.now choice.now) }
{
    if takes(choice, row.id) {
        add_meetings(row, choice.course, hours)
    } else {
        Ok(())
    }
}

/// Whether the choice takes the section.
fn takes(choice: &Choice, section: SectionId) -> bool
    ensures { result ≡ lists_section choice.now.sections section }
{
    choice
        .sections
        .as_slice()
        .iter()
        .any(|taken| taken.0 == section.0)
}

/// Adds the hours of a section's meetings, for this course.
fn add_meetings(row: &SectionRow, course: CourseId, hours: &mut Vec<Hour>) -> Result<(), Memory>
    ensures { OnOk result (hours.new.items ≡ hours.old.items ++ map (λ m. record { course = course; section = row.now.id; meeting = m }) row.now.meetings) }
{
    for meeting in row.meetings.as_slice() {
        hours.push(Hour {
            course,
            section: row.id,
            meeting: *meeting,
        })?;
    }
    Ok(())
}
