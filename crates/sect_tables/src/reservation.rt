// Rows of the table of reservations.

ghost use Rattle.csv.specs.Records.{fields_of};
ghost use Rattle.sect_tables.specs.Lines.{reservation_fields, reservation_line};
ghost use Rattle.sect_tables.specs.Told.{Tells};

use crate::line::LineFault;
use crate::values::{list_at, value_at};
use csv::ByteRecord;
use sect_command::ReserveRow;
use std::alloc::Global;

/// The reservation of a row. Under the old header a row has no field for the first day.
#[tactic(auto, unfolding(crate::specs::Lines::reservation_line))]
pub fn read_reservation(
    alloc: Global,
    has_first: bool,
    row: &ByteRecord,
) -> Result<ReserveRow, LineFault>
    ensures { Tells result (reservation_line has_first (fields_of row.now)) }
{
    let length = if has_first { 11 } else { 10 };
    if row.len() != length {
        return Err(LineFault::Field(0));
    }
    reservation(alloc, has_first, row)
}

/// The reservation of a row with the table's number of fields.
#[tactic(auto, unfolding(crate::specs::Lines::reservation_fields))]
fn reservation(alloc: Global, has_first: bool, row: &ByteRecord) -> Result<ReserveRow, LineFault>
    ensures { Tells result (reservation_fields has_first (fields_of row.now)) }
{
    let id = value_at(alloc, row, 1)?;
    let offering = value_at(alloc, row, 2)?;
    let audience = value_at(alloc, row, 3)?;
    let limit = value_at(alloc, row, 4)?;
    let expiry = value_at(alloc, row, 5)?;
    let configs = list_at(alloc, row, 6, b'+')?;
    let sections = list_at(alloc, row, 7, b'+')?;
    let over = value_at(alloc, row, 8)?;
    let overlap = value_at(alloc, row, 9)?;
    let must = value_at(alloc, row, 10)?;
    let first = if has_first {
        value_at(alloc, row, 11)?
    } else {
        None
    };
    Ok(ReserveRow {
        id,
        offering,
        audience,
        limit,
        first,
        expiry,
        configs,
        sections,
        over,
        overlap,
        must,
    })
}
