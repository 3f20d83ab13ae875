// Rows of the table of offerings, of which each is a section.

ghost use Rattle.std.specs.Prelude.{◌≡◌, IfOk, option_copied};
ghost use Rattle.csv.specs.Records.{fields_of};
ghost use Rattle.sect_tables.specs.Fields.{field_of};
ghost use Rattle.sect_tables.specs.Lines.{before_of, config_limit_of, courses_of, section_fields, section_line};
ghost use Rattle.sect_tables.specs.Told.{Tells, told};
ghost use Rattle.sect_words.specs.ReadingWords.{list_of};
ghost use Rattle.sect_words.specs.Times.{term_meeting_of};

use crate::fields::field;
use crate::line::{Before, LineFault, SectionLine};
use crate::values::{fault_at, value_at};
use csv::ByteRecord;
use sect_base::{ConfigId, Day, Items, Limit, Meeting, Memory};
use sect_catalog::{CourseRow, SectionRow};
use sect_words::{read_all, read_meetings, same_bytes};
use std::alloc::Global;

/// The section of a row, which is compared with the row before it in the same offering.
#[tactic(auto, unfolding(crate::specs::Lines::section_line))]
pub fn read_section(
    alloc: Global,
    term: Option<Day>,
    before: Option<&Before>,
    row: &ByteRecord,
) -> Result<SectionLine, LineFault>
    ensures { Tells result (section_line term (option_copied before.entry) (fields_of row.now)) }
{
    if row.len() != 9 {
        return Err(LineFault::Field(0));
    }
    section(alloc, term, before, row)
}

/// The section of a row with the table's number of fields.
#[tactic(auto, unfolding(crate::specs::Lines::section_fields))]
fn section(
    alloc: Global,
    term: Option<Day>,
    before: Option<&Before>,
    row: &ByteRecord,
) -> Result<SectionLine, LineFault>
    ensures { Tells result (section_fields term (option_copied before.entry) (fields_of row.now)) }
{
    let offering = value_at(alloc, row, 1)?;
    let courses = courses_at(alloc, before, row, 2)?;
    let config = value_at(alloc, row, 3)?;
    let config_limit = config_limit_at(alloc, before, config, row, 4)?;
    let subpart = value_at(alloc, row, 5)?;
    let id = value_at(alloc, row, 6)?;
    let limit = value_at(alloc, row, 7)?;
    let parent = value_at(alloc, row, 8)?;
    let meetings = meetings_at(alloc, term, row, 9)?;
    Ok(SectionLine {
        offering,
        courses,
        config,
        config_limit,
        subpart,
        section: SectionRow {
            id,
            limit,
            parent,
            meetings,
        },
    })
}

/// The courses of the offering, which the row before has word for word.
fn courses_at(
    alloc: Global,
    before: Option<&Before>,
    row: &ByteRecord,
    number: u32,
) -> Result<Items<CourseRow>, LineFault>
    ensures { Tells result (told number (courses_of (option_copied before.entry) (field_of (fields_of row.now) number))) }
{
    let text = field(row, number as usize);
    if let Some(before) = before {
        if !same_bytes(before.courses.as_slice(), text) {
            return Err(LineFault::Field(number));
        }
    }
    match read_all(alloc, text, b'+') {
        Ok(courses) => Ok(courses),
        Err(fault) => Err(fault_at(number, fault)),
    }
}

/// The limit of the configuration, which the row before has word for word where its configuration is the same.
fn config_limit_at(
    alloc: Global,
    before: Option<&Before>,
    config: ConfigId,
    row: &ByteRecord,
    number: u32,
) -> Result<Limit, LineFault>
    ensures { Tells result (told number (config_limit_of (option_copied before.entry) config.0 (field_of (fields_of row.now) number))) }
{
    if let Some(before) = before {
        let text = field(row, number as usize);
        if before.config.0 == config.0 && !same_bytes(before.limit.as_slice(), text) {
            return Err(LineFault::Field(number));
        }
    }
    value_at(alloc, row, number)
}

/// When the section meets.
fn meetings_at(
    alloc: Global,
    term: Option<Day>,
    row: &ByteRecord,
    number: u32,
) -> Result<Items<Meeting>, LineFault>
    ensures { Tells result (told number (list_of 43 (term_meeting_of term) (field_of (fields_of row.now) number))) }
{
    match read_meetings(alloc, term, field(row, number as usize)) {
        Ok(meetings) => Ok(meetings),
        Err(fault) => Err(fault_at(number, fault)),
    }
}

/// What the next row of the same offering is compared with, of a row whose configuration this is.
pub fn before_next(alloc: Global, config: ConfigId, row: &ByteRecord) -> Result<Before, Memory>
    ensures { IfOk result (λ before. before ≡ before_of config.0 (fields_of row.now)) }
{
    let courses = Vec::from_slice(alloc, field(row, 2))?;
    let limit = Vec::from_slice(alloc, field(row, 4))?;
    Ok(Before {
        courses: Items::from_vec(courses),
        config,
        limit: Items::from_vec(limit),
    })
}
