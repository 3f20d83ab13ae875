// Rows written one below the other.

ghost use Rattle.std.specs.Prelude.{◌≡◌, ◌++◌, [], IfOk, OnOk, map};
ghost use Rattle.csv.specs.Records.{fields_of};
ghost use Rattle.sect_csv.specs.Fields.{field_text};
ghost use Rattle.sect_csv.specs.Tables.{written};

use crate::field::{Field, print_field};
use csv::{ByteRecord, Writer, WriterBuilder};
use sect_base::Memory;
use std::alloc::Global;
use std::marker::Model;

/// Rows written one below the other. Contracts see their text.
pub(crate) struct Sheet {
    alloc: Global,
    writer: Writer<Vec<u8>>,
    // The row at hand, and the field at hand.
    row: ByteRecord,
    field: Vec<u8>,
}

/// It is written out, so that a caller does not prove again how each part is dropped.
impl Drop for Sheet {
    fn drop(self) {
        let Sheet {
            alloc: _,
            writer: _,
            row: _,
            field: _,
        } = self;
    }
}

impl Model for Sheet {
    ghost use Rattle.std.specs.Prelude.{ℕ, List};
    ghost use Rattle.sect_csv.specs.Sheet.{IsSheet, sheet_text};

    ghost Value = { List ℕ };

    ghost view = { λ s. sheet_text s.writer };

    ghost invariant = { λ s. IsSheet s.writer };
}

impl Sheet {
    /// No rows. It takes no memory.
    pub(crate) fn new(alloc: Global) -> Sheet
        ensures { result ≡ [] }
    {
        Sheet {
            alloc,
            writer: WriterBuilder::new().from_writer(Vec::new(alloc)),
            row: ByteRecord::new(alloc),
            field: Vec::new(alloc),
        }
    }

    /// Writes a row. After `Memory` there may be no rows left.
    pub(crate) fn write(&mut self, fields: &[Field]) -> Result<(), Memory>
        ensures { OnOk result (self.new ≡ self.old ++ written (map field_text fields.now)) }
    {
        fill(fields, &mut self.field, &mut self.row)?;
        match self.writer.write_byte_record(&self.row) {
            Ok(()) => Ok(()),
            Err(_) => {
                self.writer = WriterBuilder::new().from_writer(Vec::new(self.alloc));
                Err(Memory)
            }
        }
    }

    /// The text of the rows.
    pub(crate) fn into_text(self) -> Result<Vec<u8>, Memory>
        ensures { IfOk result (λ text. text.items ≡ self) }
    {
        let Sheet {
            alloc: _,
            writer,
            row: _,
            field: _,
        } = self;
        match writer.into_inner() {
            Ok(text) => Ok(text),
            Err(_) => Err(Memory),
        }
    }
}

/// Puts these fields in a row, in place of those that it had.
fn fill(fields: &[Field], word: &mut Vec<u8>, row: &mut ByteRecord) -> Result<(), Memory>
    ensures { OnOk result (fields_of row.new ≡ map field_text fields.now) }
{
    row.clear();
    for field in fields {
        word.clear();
        print_field(field, word)?;
        row.push_field(word.as_slice())?;
    }
    Ok(())
}
