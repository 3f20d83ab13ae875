// The value of one field of a row, or the field's number where it has none.

ghost use Rattle.std.specs.Prelude.{◌≡◌};
ghost use Rattle.csv.specs.Records.{fields_of};
ghost use Rattle.sect_tables.specs.Fields.{field_of};
ghost use Rattle.sect_tables.specs.Told.{Tells, field_fault, told};
ghost use Rattle.sect_words.specs.ReadingWords.{list_of};

use crate::fields::field;
use crate::line::LineFault;
use csv::ByteRecord;
use sect_base::Items;
use sect_words::{Fault, Readable, read_list};
use std::alloc::Global;

/// The value of the word in a field.
pub fn value_at<R: Readable>(alloc: Global, row: &ByteRecord, number: u32) -> Result<R, LineFault>
    ensures { Tells result (told number (R.reads (field_of (fields_of row.now) number))) }
{
    match R::read(alloc, field(row, number as usize)) {
        Ok(value) => Ok(value),
        Err(fault) => Err(fault_at(number, fault)),
    }
}

/// The values of a field's words, which stand between marks; none for a dash.
pub fn list_at<R: Readable>(
    alloc: Global,
    row: &ByteRecord,
    number: u32,
    mark: u8,
) -> Result<Items<R>, LineFault>
    ensures { Tells result (told number (list_of mark R.reads (field_of (fields_of row.now) number))) }
{
    match read_list(alloc, field(row, number as usize), mark) {
        Ok(values) => Ok(values),
        Err(fault) => Err(fault_at(number, fault)),
    }
}

/// The fault of the field with this number, whose word was not read.
pub fn fault_at(number: u32, fault: Fault) -> LineFault
    ensures { result ≡ field_fault number fault }
{
    match fault {
        Fault::Bad => LineFault::Field(number),
        Fault::Memory => LineFault::Memory,
    }
}
