// Rows of the table of requests.

ghost use Rattle.csv.specs.Records.{fields_of};
ghost use Rattle.sect_tables.specs.Fields.{field_of};
ghost use Rattle.sect_tables.specs.Lines.{ask_fields, ask_line, course_fields, free_fields, kind_fields, no_of, rank_of};
ghost use Rattle.sect_tables.specs.Told.{Tells, told};

use crate::fields::field;
use crate::line::LineFault;
use crate::values::value_at;
use csv::ByteRecord;
use itoa::Buffer;
use sect_base::StudentId;
use sect_people::{Ask, CourseAsk};
use sect_words::same_bytes;
use std::alloc::Global;

/// The request of a row and whose it is. Its rank has to be this one.
#[tactic(auto, unfolding(crate::specs::Lines::ask_line))]
pub fn read_ask(alloc: Global, rank: u64, row: &ByteRecord) -> Result<(StudentId, Ask), LineFault>
    ensures { Tells result (ask_line rank (fields_of row.now)) }
{
    if row.len() != 6 {
        return Err(LineFault::Field(0));
    }
    request(alloc, rank, row)
}

/// The request of a row with the table's number of fields.
#[tactic(auto, unfolding(crate::specs::Lines::ask_fields))]
fn request(alloc: Global, rank: u64, row: &ByteRecord) -> Result<(StudentId, Ask), LineFault>
    ensures { Tells result (ask_fields rank (fields_of row.now)) }
{
    let student = value_at(alloc, row, 1)?;
    rank_at(rank, row, 2)?;
    let ask = request_of_kind(alloc, field(row, 3), row)?;
    Ok((student, ask))
}

/// The rank, where the field's text is its digits.
fn rank_at(rank: u64, row: &ByteRecord, number: u32) -> Result<u64, LineFault>
    ensures { Tells result (told number (rank_of rank (field_of (fields_of row.now) number))) }
{
    let text = field(row, number as usize);
    if same_bytes(Buffer::new().format(rank).as_bytes(), text) {
        Ok(rank)
    } else {
        Err(LineFault::Field(number))
    }
}

/// What a row of this kind asks for.
fn request_of_kind(alloc: Global, kind: &[u8], row: &ByteRecord) -> Result<Ask, LineFault>
    ensures { Tells result (kind_fields kind.now (fields_of row.now)) }
{
    if same_bytes(kind, b"course") {
        course_request(alloc, row)
    } else if same_bytes(kind, b"free") {
        free_request(alloc, row)
    } else {
        Err(LineFault::Field(3))
    }
}

/// Some courses, of which one is asked for.
#[tactic(auto, unfolding(crate::specs::Lines::course_fields))]
fn course_request(alloc: Global, row: &ByteRecord) -> Result<Ask, LineFault>
    ensures { Tells result (course_fields (fields_of row.now)) }
{
    let courses = value_at(alloc, row, 4)?;
    let wait = value_at(alloc, row, 5)?;
    let substitute = value_at(alloc, row, 6)?;
    Ok(Ask::Course(CourseAsk {
        courses,
        wait,
        substitute,
    }))
}

/// A time that is to be kept free, whose flags are no.
#[tactic(auto, unfolding(crate::specs::Lines::free_fields))]
fn free_request(alloc: Global, row: &ByteRecord) -> Result<Ask, LineFault>
    ensures { Tells result (free_fields (fields_of row.now)) }
{
    let meeting = value_at(alloc, row, 4)?;
    no_at(row, 5)?;
    no_at(row, 6)?;
    Ok(Ask::Free(meeting))
}

/// No, where the field says it.
fn no_at(row: &ByteRecord, number: u32) -> Result<bool, LineFault>
    ensures { Tells result (told number (no_of (field_of (fields_of row.now) number))) }
{
    if same_bytes(b"0", field(row, number as usize)) {
        Ok(false)
    } else {
        Err(LineFault::Field(number))
    }
}
