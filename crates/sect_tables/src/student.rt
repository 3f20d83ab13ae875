// Rows of the table of students.

ghost use Rattle.csv.specs.Records.{fields_of};
ghost use Rattle.sect_tables.specs.Lines.{student_fields, student_line};
ghost use Rattle.sect_tables.specs.Told.{Tells};

use crate::line::LineFault;
use crate::values::{list_at, value_at};
use csv::ByteRecord;
use sect_people::StudentRow;
use std::alloc::Global;

/// The student of a row.
#[tactic(auto, unfolding(crate::specs::Lines::student_line))]
pub fn read_student(alloc: Global, row: &ByteRecord) -> Result<StudentRow, LineFault>
    ensures { Tells result (student_line (fields_of row.now)) }
{
    if row.len() != 4 {
        return Err(LineFault::Field(0));
    }
    student(alloc, row)
}

/// The student of a row with the table's number of fields.
#[tactic(auto, unfolding(crate::specs::Lines::student_fields))]
fn student(alloc: Global, row: &ByteRecord) -> Result<StudentRow, LineFault>
    ensures { Tells result (student_fields (fields_of row.now)) }
{
    let id = value_at(alloc, row, 1)?;
    let max_credits = value_at(alloc, row, 2)?;
    let groups = list_at(alloc, row, 3, b'+')?;
    let curricula = list_at(alloc, row, 4, b';')?;
    Ok(StudentRow {
        id,
        max_credits,
        groups,
        curricula,
    })
}
