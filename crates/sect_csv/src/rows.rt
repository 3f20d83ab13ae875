// Rows read one after the other.

ghost use Rattle.std.specs.Prelude.{◌≡◌, ◌++◌, OnErr, OnOk, map};
ghost use Rattle.csv.specs.Records.{fields_of};
ghost use Rattle.sect_csv.specs.Intake.{with_end};
ghost use Rattle.sect_tables.specs.Rows.{rows_read};

use csv::ByteRecord;
use sect_base::Memory;
use sect_tables::{Given, Reading};

/// Reads rows, and appends the commands that they show to be complete. For want of memory none is appended; the
/// reading is then of no more use.
pub(crate) fn take_rows(
    rows: &[ByteRecord],
    reading: &mut Reading,
    out: &mut Vec<Given>,
) -> Result<(), Memory>
    ensures read { OnOk result (reading.new ≡ (rows_read reading.old (map fields_of rows.now)).0) }
    ensures given { OnOk result (out.new.items ≡ out.old.items ++ (rows_read reading.old (map fields_of rows.now)).1) }
    ensures memory { OnErr result (out.new.items ≡ out.old.items) }
{
    let before = out.len();
    for row in rows {
        if reading.take(row, out).is_err() {
            out.truncate(before);
            return Err(Memory);
        }
    }
    Ok(())
}

/// Reads the last rows and the end of the table, and appends the commands that they show to be complete. For want of
/// memory none is appended; the reading is then of no more use.
pub(crate) fn take_last_rows(
    rows: &[ByteRecord],
    reading: &mut Reading,
    out: &mut Vec<Given>,
) -> Result<(), Memory>
    ensures read { OnOk result (reading.new ≡ (with_end (rows_read reading.old (map fields_of rows.now))).0) }
    ensures given { OnOk result (out.new.items ≡ out.old.items ++ (with_end (rows_read reading.old (map fields_of rows.now))).1) }
    ensures memory { OnErr result (out.new.items ≡ out.old.items) }
{
    let length = out.len();
    take_rows(rows, reading, out)?;
    if reading.end(out).is_err() {
        out.truncate(length);
        return Err(Memory);
    }
    Ok(())
}
