// Reads the rows of a text as its pieces come.

ghost use Rattle.std.specs.Prelude.{◌≡◌, ◌++◌, [], map, IfOk, OnOk, OnErr};
ghost use Rattle.csv.specs.Records.{fields_of};
ghost use Rattle.sect_csv.specs.Rows.{all_rows, shown_rows};

use crate::kept::Kept;
use crate::past::Past;
use csv::ByteRecord;
use sect_base::Memory;
use std::alloc::Global;
use std::marker::Model;

/// The rows of a text that comes in pieces. Contracts see the bytes that came.
pub struct Records {
    alloc: Global,
    kept: Kept,
    // Rows whose room serves again.
    spare: Vec<ByteRecord>,
    past: Past,
}

/// It is written out, so that a caller does not prove again how each part is dropped.
impl Drop for Records {
    fn drop(self) {
        let Records {
            alloc: _,
            kept: _,
            spare: _,
            past: _,
        } = self;
    }
}

impl Model for Records {
    ghost use Rattle.std.specs.Prelude.{List, ℕ};
    ghost use Rattle.sect_csv.specs.Kept.{StandsFor};

    ghost Value = { List ℕ };

    ghost view = { λ r. r.past.bytes };

    ghost invariant = { λ r. StandsFor r.past.bytes r.kept };
}

impl Records {
    /// Before the first piece. It takes no memory.
    pub fn new(alloc: Global) -> Records
        ensures { result ≡ [] }
    {
        Records {
            alloc,
            kept: Kept::new(alloc),
            spare: Vec::new(alloc),
            past: Past::new(),
        }
    }

    /// Takes the next piece, and gives the rows that are read with it and were not before.
    pub fn feed(&mut self, piece: &[u8]) -> Result<Vec<ByteRecord>, Memory>
        ensures fed { OnOk result (self.new ≡ self.old ++ piece.now) }
        ensures rows { IfOk result (λ rows. shown_rows (self.old ++ piece.now) ≡ shown_rows self.old ++ map fields_of rows.items) }
        ensures memory { OnErr result (self.new ≡ self.old) }
    {
        let rows = self.kept.feed(self.alloc, &mut self.spare, piece)?;
        self.past.note(piece);
        Ok(rows)
    }

    /// The rows that are left, the text being at its end.
    pub fn end(&mut self) -> Result<Vec<ByteRecord>, Memory>
        ensures rows { IfOk result (λ rows. all_rows self.old ≡ shown_rows self.old ++ map fields_of rows.items) }
        ensures same { self.new ≡ self.old }
    {
        self.kept.end(self.alloc, &mut self.spare)
    }

    /// Takes rows back that are of no more use: the next ones are read into them. It takes no memory.
    pub fn reuse(&mut self, rows: Vec<ByteRecord>)
        ensures { self.new ≡ self.old }
    {
        self.spare = rows;
    }
}
