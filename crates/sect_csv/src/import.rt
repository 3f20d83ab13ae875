// An import of a table, in pieces.

ghost use Rattle.std.specs.Prelude.{◌≡◌};
ghost use Rattle.sect_csv.specs.Intake.{GivesTheNew, after, answer_to, beginning, fed, finished, reading_of};

use crate::Records;
use crate::rows::{take_last_rows, take_rows};
use sect_base::{Day, Memory};
use sect_command::Table;
use sect_tables::{CsvFault, Given, Reading};
use std::alloc::Global;
use std::marker::Model;

/// An import of a table, in pieces. However the bytes are cut into pieces, the commands are those of the bytes.
///
/// Once a call has answered a fault, every later one answers it again and does nothing else. Once `end` has answered
/// `Ok`, every later call answers `Ok` and does nothing else.
pub struct Import {
    table: Table,
    term: Option<Day>,
    records: Records,
    // The length of the last piece, where memory did not suffice for its rows: it does not count as fed.
    unread: usize,
    reading: Reading,
    rows: u64,
    open_row: Option<u64>,
    ended: bool,
    fault: Option<CsvFault>,
}

/// It is written out, so that a caller does not prove again how each part is dropped.
impl Drop for Import {
    fn drop(self) {
        let Import {
            table: _,
            term: _,
            records: _,
            unread: _,
            reading: _,
            rows: _,
            open_row: _,
            ended: _,
            fault: _,
        } = self;
    }
}

impl Model for Import {
    ghost use Rattle.sect_csv.specs.Intake.{Intake};

    ghost Value = { Intake };

    ghost use Rattle.sect_csv.specs.Inside.{IsImport, intake_of};

    ghost view = { intake_of };

    ghost invariant = { IsImport };
}

impl Import {
    /// Before the first piece. Meetings may say their weeks by two days of the term. It takes no memory.
    pub fn new(alloc: Global, table: Table, term: Option<Day>) -> Result<Import, Memory>
        ensures { result ≡ Ok (beginning table term) }
    {
        let reading = Reading::new(alloc, table, term.as_ref().copied());
        Ok(Import {
            table,
            term,
            records: Records::new(alloc),
            unread: 0,
            reading,
            rows: 0,
            open_row: None,
            ended: false,
            fault: None,
        })
    }

    /// Takes the next piece, and appends the commands that it shows to be complete. After `BadRow` those of the rows
    /// before it are appended; after `Memory` none is.
    pub fn feed(&mut self, piece: &[u8], out: &mut Vec<Given>) -> Result<(), CsvFault>
        ensures after { self.new ≡ after result self.old (fed self.old piece.now) }
        ensures answer { result ≡ answer_to self.new.fault }
        ensures given { GivesTheNew self.old self.new out.old.items out.new.items }
    {
        if self.ended || self.fault.is_some() {
            return self.answer();
        }
        let Ok(rows) = self.records.feed(piece) else {
            self.fault = Some(CsvFault::Memory);
            return self.answer();
        };
        if take_rows(rows.as_slice(), &mut self.reading, out).is_err() {
            self.unread = piece.len();
            self.fault = Some(CsvFault::Memory);
            return self.answer();
        }
        self.records.reuse(rows);
        self.rows = self.reading.rows();
        self.open_row = self.reading.open_row();
        self.fault = self.reading.fault();
        self.answer()
    }

    /// Takes the end of the input, and appends the commands that are left. After `BadRow` those of the rows before it are
    /// appended; after `Memory` none is.
    pub fn end(&mut self, out: &mut Vec<Given>) -> Result<(), CsvFault>
        ensures after { self.new ≡ after result self.old (finished self.old) }
        ensures answer { result ≡ answer_to self.new.fault }
        ensures given { GivesTheNew self.old self.new out.old.items out.new.items }
    {
        if self.fault.is_some() || self.ended {
            return self.answer();
        }
        let Ok(rows) = self.records.end() else {
            self.fault = Some(CsvFault::Memory);
            return self.answer();
        };
        if take_last_rows(rows.as_slice(), &mut self.reading, out).is_err() {
            self.fault = Some(CsvFault::Memory);
            return self.answer();
        }
        self.rows = self.reading.rows();
        self.open_row = self.reading.open_row();
        self.ended = true;
        self.fault = self.reading.fault();
        self.answer()
    }

    /// How many rows were read, the header and a bad row with them. It takes no memory.
    pub fn rows(&self) -> u64
        ensures { result ≡ (reading_of self.now).rows }
    {
        self.rows
    }

    /// The first row of the command that was begun and not given, where there is one. It stays open where a later row of it is
    /// bad, and none is after the end. It takes no memory.
    pub fn open_row(&self) -> Option<u64>
        ensures { result ≡ (reading_of self.now).open_row }
    {
        self.open_row
    }

    /// The fault, if any.
    fn answer(&self) -> Result<(), CsvFault>
        ensures { result ≡ answer_to self.now.fault }
    {
        match self.fault {
            Some(fault) => Err(fault),
            None => Ok(()),
        }
    }
}
