// Reads every row of a text.

ghost use Rattle.std.specs.Prelude.{◌≡◌, ◌++◌, ◌∷◌, [], map, IfOk, IsTrue};
ghost use Rattle.csv.specs.Reading.{strip_bom};
ghost use Rattle.csv.specs.Records.{fields_of};
ghost use Rattle.sect_csv.specs.Lines.{AreLines, IsWhole};
ghost use Rattle.sect_csv.specs.Rows.{all_rows, at_start, rows_within};

use csv::{ByteRecord, ReaderBuilder};
use sect_base::Memory;
use std::alloc::Global;
use std::io::Read;

/// The rows that ended within some lines. It is whole where nothing of a row is left behind them.
#[derive(Drop)]
pub(crate) struct Ended {
    pub(crate) rows: Vec<ByteRecord>,
    pub(crate) whole: bool,
}

/// The rows that ended within these lines. One more byte stands behind them for the reader: it is the last row by
/// itself where nothing of a row is left, and else a part of it.
pub(crate) fn read_lines(
    alloc: Global,
    spare: &mut Vec<ByteRecord>,
    lines: &[u8],
) -> Result<Ended, Memory>
    requires { AreLines lines.now }
    ensures rows { IfOk result (λ ended. map fields_of ended.rows.items ≡ rows_within at_start (strip_bom lines.now)) }
    ensures whole { IfOk result (λ ended. IsTrue ended.whole → IsWhole lines.now) }
{
    let mut rows = read_all(alloc, spare, lines, b"x")?;
    let whole = match rows.pop() {
        Some(last) => is_one_byte(&last),
        None => false,
    };
    Ok(Ended { rows, whole })
}

/// Whether the row is the one byte that stands behind the lines, by itself.
fn is_one_byte(row: &ByteRecord) -> bool
    ensures { IsTrue result → fields_of row.now ≡ (120 ∷ []) ∷ [] }
{
    match row.get(0) {
        Some(field) => row.len() == 1 && field == b"x".as_slice(),
        None => false,
    }
}

/// Every row of a text that stands in two parts. As long as there are spare rows, they are read into, so that their room
/// serves again.
pub(crate) fn read_all(
    alloc: Global,
    spare: &mut Vec<ByteRecord>,
    text: &[u8],
    tail: &[u8],
) -> Result<Vec<ByteRecord>, Memory>
    ensures { IfOk result (λ rows. map fields_of rows.items ≡ all_rows (text.now ++ tail.now)) }
{
    let mut reader = ReaderBuilder::new()
        .has_headers(false)
        .flexible(true)
        .from_reader(alloc, text.chain(tail));
    let mut rows = Vec::new(alloc);
    for _ in 0..u64::MAX {
        let mut row = row_to_read_into(alloc, spare);
        match reader.read_byte_record(&mut row) {
            Ok(true) => rows.push(row)?,
            Ok(false) => return Ok(rows),
            Err(_) => return Err(Memory),
        }
    }
    Err(Memory)
}

/// A spare row, or else one without room.
fn row_to_read_into(alloc: Global, spare: &mut Vec<ByteRecord>) -> ByteRecord {
    match spare.pop() {
        Some(row) => row,
        None => ByteRecord::new(alloc),
    }
}
