// The rows of offerings, one for each section.

ghost use Rattle.std.specs.Prelude.{◌≡◌, ◌++◌, OnOk};
ghost use Rattle.std.specs.List.{flat_map};
ghost use Rattle.sect_csv.specs.Tables.{config_text, offering_text, section_fields, subpart_text, written};

use crate::field::Field;
use crate::sheet::Sheet;
use sect_base::Memory;
use sect_catalog::{ConfigRow, OfferingRow, SectionRow, SubpartRow};

/// Writes the rows of offerings.
pub(crate) fn write_offerings(rows: &[OfferingRow], sheet: &mut Sheet) -> Result<(), Memory>
    ensures { OnOk result (sheet.new ≡ sheet.old ++ flat_map offering_text rows.now) }
{
    for row in rows {
        write_offering(row, sheet)?;
    }
    Ok(())
}

/// Writes the rows of an offering, one for each of its sections.
fn write_offering(offering: &OfferingRow, sheet: &mut Sheet) -> Result<(), Memory>
    ensures { OnOk result (sheet.new ≡ sheet.old ++ offering_text offering.now) }
{
    for config in offering.configs.as_slice() {
        write_config(offering, config, sheet)?;
    }
    Ok(())
}

/// Writes the rows of a configuration, one for each of its sections.
fn write_config(offering: &OfferingRow, config: &ConfigRow, sheet: &mut Sheet) -> Result<(), Memory>
    ensures { OnOk result (sheet.new ≡ sheet.old ++ config_text offering.now config.now) }
{
    for subpart in config.subparts.as_slice() {
        write_subpart(offering, config, subpart, sheet)?;
    }
    Ok(())
}

/// Writes the rows of a subpart, one for each of its sections.
fn write_subpart(
    offering: &OfferingRow,
    config: &ConfigRow,
    subpart: &SubpartRow,
    sheet: &mut Sheet,
) -> Result<(), Memory>
    ensures { OnOk result (sheet.new ≡ sheet.old ++ subpart_text offering.now config.now subpart.now) }
{
    for section in subpart.sections.as_slice() {
        write_section(offering, config, subpart, section, sheet)?;
    }
    Ok(())
}

/// Writes the row of a section, with what it belongs to.
fn write_section<'a>(
    offering: &'a OfferingRow,
    config: &'a ConfigRow,
    subpart: &'a SubpartRow,
    section: &'a SectionRow,
    sheet: &mut Sheet,
) -> Result<(), Memory>
    ensures { OnOk result (sheet.new ≡ sheet.old ++ written (section_fields offering.now config.now subpart.now section.now)) }
{
    sheet.write(&[
        Field::Number(u64::from(offering.id.0)),
        Field::Courses(offering.courses.as_slice()),
        Field::Number(u64::from(config.id.0)),
        Field::Places(config.limit),
        Field::Number(u64::from(subpart.id.0)),
        Field::Number(u64::from(section.id.0)),
        Field::Places(section.limit),
        Field::Parent(section.parent),
        Field::Times(section.meetings.as_slice()),
    ])
}
