// The bytes that are kept of a text.

ghost use Rattle.std.specs.Prelude.{◌≡◌, ◌≤◌, ◌++◌, [], drop, length, map, IfOk, OnOk, OnErr};
ghost use Rattle.csv.specs.Records.{fields_of};
ghost use Rattle.sect_csv.specs.Kept.{StandsFor};
ghost use Rattle.sect_csv.specs.Rows.{all_rows, shown_rows};

use crate::lines::lines_len;
use crate::read::{Ended, read_all, read_lines};
use csv::ByteRecord;
use sect_base::Memory;
use std::alloc::Global;
use std::marker::Model;

/// The last bytes of a text, and how many of their rows were given.
pub(crate) struct Kept {
    bytes: Vec<u8>,
    given: usize,
}

/// It is written out, so that a caller does not prove again how each part is dropped.
impl Drop for Kept {
    fn drop(self) {
        let Kept { bytes: _, given: _ } = self;
    }
}

impl Model for Kept {
    ghost use Rattle.std.specs.Prelude.{◌≡◌, List, ℕ, length};
    ghost use Rattle.sect_csv.specs.Rows.{shown_rows};

    ghost Value = { List ℕ };

    ghost view = { λ k. k.bytes.items };

    ghost invariant = { λ k. k.given ≡ length (shown_rows k.bytes.items) };
}

impl Kept {
    /// No bytes, and no rows given. It takes no memory.
    pub(crate) fn new(alloc: Global) -> Kept
        ensures { result ≡ [] }
    {
        Kept {
            bytes: Vec::new(alloc),
            given: 0,
        }
    }

    /// Takes the next piece, and gives the rows that it shows. What the rows to come don't need goes by.
    pub(crate) fn feed(
        &mut self,
        alloc: Global,
        spare: &mut Vec<ByteRecord>,
        piece: &[u8],
    ) -> Result<Vec<ByteRecord>, Memory>
        ensures rows { IfOk result (λ rows. shown_rows (self.old ++ piece.now) ≡ shown_rows self.old ++ map fields_of rows.items) }
        ensures stands { OnOk result (StandsFor (self.old ++ piece.now) self.new) }
        ensures memory { OnErr result (self.new ≡ self.old) }
    {
        let before = self.bytes.len();
        self.bytes.extend_from_slice(piece)?;
        let lines = lines_len(piece);
        if lines == 0 {
            return Ok(Vec::new(alloc));
        }
        let end = before + lines;
        let Ended { mut rows, whole } = match read_lines(alloc, spare, &self.bytes[..end]) {
            Ok(ended) => ended,
            Err(memory) => {
                self.bytes.truncate(before);
                return Err(memory);
            }
        };
        let count = rows.len();
        drop_first(&mut rows, self.given);
        if whole {
            drop_first(&mut self.bytes, end - 1);
            self.given = 0;
        } else {
            self.given = count;
        }
        Ok(rows)
    }

    /// The rows that were not given, the text being at its end.
    pub(crate) fn end(
        &self,
        alloc: Global,
        spare: &mut Vec<ByteRecord>,
    ) -> Result<Vec<ByteRecord>, Memory>
        ensures { IfOk result (λ rows. all_rows self.now ≡ shown_rows self.now ++ map fields_of rows.items) }
    {
        let mut rows = read_all(alloc, spare, &self.bytes, &[])?;
        drop_first(&mut rows, self.given);
        Ok(rows)
    }
}

/// Takes so many items off the front.
fn drop_first<T: Drop>(items: &mut Vec<T>, count: usize)
    requires { count ≤ length items.old.items }
    ensures { items.new.items ≡ drop count items.old.items }
{
    items.drain(..count);
}
