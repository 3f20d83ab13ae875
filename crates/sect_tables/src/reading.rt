// Reads a table row by row.

ghost use Rattle.std.specs.Prelude.{◌≡◌, [], ◌++◌, None, OnErr, OnOk, Some, option_map};
ghost use Rattle.csv.specs.Records.{fields_of};
ghost use Rattle.sect_tables.specs.Fields.{field_of};
ghost use Rattle.sect_tables.specs.Lines.{reservation_line, student_line};
ghost use Rattle.sect_tables.specs.Progress.{opening};
ghost use Rattle.sect_tables.specs.Rows.{
  at_end,
  begun,
  failed,
  first_row,
  gone_on,
  has_first as says_first,
  offering_row,
  requests_row,
  reservation_row,
  row_read,
  same_offering,
  same_student,
  student_row,
  table_row,
};
ghost use Rattle.sect_tables.specs.declared.given.CsvFault.TheVariants.{BadRow};

use crate::give::{give, offering_of_row, requests_of_row};
use crate::given::{CsvFault, Given};
use crate::hand::{AtHand, Group, Header};
use crate::header::{has_first, header_difference, is_old};
use crate::offering::OpenOffering;
use crate::requests::OpenRequests;
use crate::{LineFault, read_ask, read_reservation, read_section, read_student};
use csv::ByteRecord;
use sect_base::{Day, Memory};
use sect_command::{Command, Table};
use std::alloc::Global;
use std::marker::Model;

/// A table as far as its rows were read.
pub struct Reading {
    alloc: Global,
    table: Table,
    term: Option<Day>,
    rows: u64,
    header: Option<Header>,
    at_hand: Option<AtHand>,
    open_row: Option<u64>,
    fault: Option<(u64, u32)>,
}

/// It is written out, so that a caller does not prove again how each part is dropped.
impl Drop for Reading {
    fn drop(self) {
        let Reading {
            alloc: _,
            table: _,
            term: _,
            rows: _,
            header: _,
            at_hand: _,
            open_row: _,
            fault: _,
        } = self;
    }
}

impl Model for Reading {
    ghost use Rattle.sect_tables.specs.Progress.{Progress};

    ghost Value = { Progress };

    ghost view = { λ r. record {
      table = r.table;
      term = r.term;
      rows = r.rows;
      header = r.header;
      at_hand = r.at_hand;
      open_row = r.open_row;
      fault = r.fault;
    } };
}

impl Reading {
    /// Before the first row. The weeks of a meeting may be two days of the term. It takes no memory.
    pub fn new(alloc: Global, table: Table, term: Option<Day>) -> Reading
        ensures { result ≡ opening table term }
    {
        Reading {
            alloc,
            table,
            term,
            rows: 0,
            header: None,
            at_hand: None,
            open_row: None,
            fault: None,
        }
    }

    /// Takes the next row, and gives the command that it shows to be complete, where there is one. For want of memory
    /// nothing is given; the reading is then of no more use.
    #[tactic(auto, unfolding(crate::specs::Rows::row_read))]
    pub fn take(&mut self, row: &ByteRecord, out: &mut Vec<Given>) -> Result<(), Memory>
        ensures read { OnOk result (self.new ≡ (row_read self.old (fields_of row.now)).0) }
        ensures given { OnOk result (out.new.items ≡ out.old.items ++ (row_read self.old (fields_of row.now)).1) }
        ensures memory { OnErr result (out.new.items ≡ out.old.items) }
    {
        if self.fault.is_some() {
            return Ok(());
        }
        self.rows = self.rows.checked_add(1).ok_or(Memory)?;
        match self.header {
            None => {
                self.take_header(row);
                Ok(())
            }
            Some(header) => self.take_line(header, row, out),
        }
    }

    /// The table is at its end, which shows that the command at hand is complete. For want of memory nothing is given;
    /// the reading is then of no more use.
    #[tactic(auto, unfolding(crate::specs::Rows::at_end))]
    pub fn end(&mut self, out: &mut Vec<Given>) -> Result<(), Memory>
        ensures read { OnOk result (self.new ≡ (at_end self.old).0) }
        ensures given { OnOk result (out.new.items ≡ out.old.items ++ (at_end self.old).1) }
        ensures memory { OnErr result (out.new.items ≡ out.old.items) }
    {
        if self.fault.is_some() {
            return Ok(());
        }
        if self.rows == 0 {
            self.fault = Some((1, 0));
            return Ok(());
        }
        self.open_row = None;
        give(self.at_hand.take(), out)
    }

    /// The first row that isn't in its form, where there is one, and its first field that isn't. It takes no memory.
    pub fn fault(&self) -> Option<CsvFault>
        ensures { result ≡ option_map (λ bad. BadRow bad.0 bad.1) self.now.fault }
    {
        let (row, field) = self.fault?;
        Some(CsvFault::BadRow { row, field })
    }

    /// How many rows were read, the header and a bad row with them. It takes no memory.
    pub fn rows(&self) -> u64
        ensures { result ≡ self.now.rows }
    {
        self.rows
    }

    /// The first row of the command that was begun and not given, where there is one. Before the end it is the last command
    /// that was begun, also where a later row of it is bad. It takes no memory.
    pub fn open_row(&self) -> Option<u64>
        ensures { result ≡ self.now.open_row }
    {
        self.open_row
    }

    /// Takes the first row.
    #[tactic(auto, unfolding(crate::specs::Rows::first_row))]
    fn take_header(&mut self, row: &ByteRecord)
        ensures read { self.new ≡ (first_row self.old (fields_of row.now)).0 }
        ensures given { (first_row self.old (fields_of row.now)).1 ≡ [] }
    {
        if is_old(self.table, row) {
            self.header = Some(Header::WithoutFirst);
        } else {
            match header_difference(self.table, row) {
                None => self.header = Some(Header::Whole),
                Some(field) => self.fail(field),
            }
        }
    }

    /// Takes a row behind the header.
    #[tactic(auto, unfolding(crate::specs::Rows::table_row))]
    fn take_line(
        &mut self,
        header: Header,
        row: &ByteRecord,
        out: &mut Vec<Given>,
    ) -> Result<(), Memory>
        ensures read { OnOk result (self.new ≡ (table_row self.old.table self.old header (fields_of row.now)).0) }
        ensures given { OnOk result (out.new.items ≡ out.old.items ++ (table_row self.old.table self.old header (fields_of row.now)).1) }
        ensures memory { OnErr result (out.new.items ≡ out.old.items) }
    {
        match self.table {
            Table::Offerings => self.take_section(row, out),
            Table::Students => self.take_student(row, out),
            Table::Requests => self.take_ask(row, out),
            Table::Reservations => self.take_reservation(header, row, out),
        }
    }

    /// Takes a row of offerings.
    fn take_section(&mut self, row: &ByteRecord, out: &mut Vec<Given>) -> Result<(), Memory>
        ensures read { OnOk result (self.new ≡ (offering_row self.old (fields_of row.now)
            (same_offering self.old.at_hand (field_of (fields_of row.now) 1))).0) }
        ensures given { OnOk result (out.new.items ≡ out.old.items
            ++ (offering_row self.old (fields_of row.now)
            (same_offering self.old.at_hand (field_of (fields_of row.now) 1))).1) }
        ensures memory { OnErr result (out.new.items ≡ out.old.items) }
    {
        match offering_of_row(self.at_hand.take(), row) {
            Ok((first, so_far)) => self.next_section(first, so_far, row),
            Err(kept) => {
                self.at_hand = kept;
                self.first_section(row, out)
            }
        }
    }

    /// Takes a row that begins an offering.
    #[tactic(auto, unfolding(crate::specs::Rows::offering_row))]
    fn first_section(&mut self, row: &ByteRecord, out: &mut Vec<Given>) -> Result<(), Memory>
        ensures read { OnOk result (self.new ≡ (offering_row self.old (fields_of row.now) None).0) }
        ensures given { OnOk result (out.new.items ≡ out.old.items ++ (offering_row self.old (fields_of row.now) None).1) }
        ensures memory { OnErr result (out.new.items ≡ out.old.items) }
    {
        match read_section(self.alloc, self.term, None, row) {
            Ok(line) => {
                let so_far = OpenOffering::begin(self.alloc, row, line)?;
                self.begin(Group::Offering(so_far), out)
            }
            Err(LineFault::Field(field)) => {
                self.fail(field);
                Ok(())
            }
            Err(LineFault::Memory) => Err(Memory),
        }
    }

    /// Takes a row that goes on with an offering.
    #[tactic(auto, unfolding(crate::specs::Rows::offering_row))]
    fn next_section(
        &mut self,
        first: u64,
        so_far: OpenOffering,
        row: &ByteRecord,
    ) -> Result<(), Memory>
        ensures { OnOk result (self.new ≡ (offering_row self.old (fields_of row.now) (Some (first, so_far))).0) }
    {
        match read_section(self.alloc, self.term, Some(so_far.before()), row) {
            Ok(line) => {
                let so_far = so_far.with(self.alloc, row, line)?;
                self.go_on(first, Group::Offering(so_far));
                Ok(())
            }
            Err(LineFault::Field(field)) => {
                self.fail(field);
                Ok(())
            }
            Err(LineFault::Memory) => Err(Memory),
        }
    }

    /// Takes a row of requests.
    fn take_ask(&mut self, row: &ByteRecord, out: &mut Vec<Given>) -> Result<(), Memory>
        ensures read { OnOk result (self.new ≡ (requests_row self.old (fields_of row.now) (same_student self.old.at_hand (field_of (fields_of row.now) 1))).0) }
        ensures given { OnOk result (out.new.items ≡ out.old.items
            ++ (requests_row self.old (fields_of row.now) (same_student self.old.at_hand (field_of (fields_of row.now) 1))).1) }
        ensures memory { OnErr result (out.new.items ≡ out.old.items) }
    {
        match requests_of_row(self.at_hand.take(), row) {
            Ok((first, so_far)) => self.next_ask(first, so_far, row),
            Err(kept) => {
                self.at_hand = kept;
                self.first_ask(row, out)
            }
        }
    }

    /// Takes a row that begins a student's requests.
    #[tactic(auto, unfolding(crate::specs::Rows::requests_row))]
    fn first_ask(&mut self, row: &ByteRecord, out: &mut Vec<Given>) -> Result<(), Memory>
        ensures read { OnOk result (self.new ≡ (requests_row self.old (fields_of row.now) None).0) }
        ensures given { OnOk result (out.new.items ≡ out.old.items ++ (requests_row self.old (fields_of row.now) None).1) }
        ensures memory { OnErr result (out.new.items ≡ out.old.items) }
    {
        match read_ask(self.alloc, 1, row) {
            Ok(line) => {
                let so_far = OpenRequests::begin(self.alloc, row, line)?;
                self.begin(Group::Requests(so_far), out)
            }
            Err(LineFault::Field(field)) => {
                self.fail(field);
                Ok(())
            }
            Err(LineFault::Memory) => Err(Memory),
        }
    }

    /// Takes a row that goes on with a student's requests.
    #[tactic(auto, unfolding(crate::specs::Rows::requests_row))]
    fn next_ask(&mut self, first: u64, so_far: OpenRequests, row: &ByteRecord) -> Result<(), Memory>
        ensures { OnOk result (self.new ≡ (requests_row self.old (fields_of row.now) (Some (first, so_far))).0) }
    {
        match read_ask(self.alloc, so_far.next_rank()?, row) {
            Ok(line) => {
                self.go_on(first, Group::Requests(so_far.with(line)?));
                Ok(())
            }
            Err(LineFault::Field(field)) => {
                self.fail(field);
                Ok(())
            }
            Err(LineFault::Memory) => Err(Memory),
        }
    }

    /// Takes a row of students.
    #[tactic(auto, unfolding(crate::specs::Rows::student_row))]
    fn take_student(&mut self, row: &ByteRecord, out: &mut Vec<Given>) -> Result<(), Memory>
        ensures read { OnOk result (self.new ≡ (student_row self.old (student_line (fields_of row.now))).0) }
        ensures given { OnOk result (out.new.items ≡ out.old.items ++ (student_row self.old (student_line (fields_of row.now))).1) }
        ensures memory { OnErr result (out.new.items ≡ out.old.items) }
    {
        match read_student(self.alloc, row) {
            Ok(student) => self.begin(Group::Row(Command::Student(student)), out),
            Err(LineFault::Field(field)) => {
                self.fail(field);
                Ok(())
            }
            Err(LineFault::Memory) => Err(Memory),
        }
    }

    /// Takes a row of reservations.
    #[tactic(auto, unfolding(crate::specs::Rows::reservation_row))]
    fn take_reservation(
        &mut self,
        header: Header,
        row: &ByteRecord,
        out: &mut Vec<Given>,
    ) -> Result<(), Memory>
        ensures read { OnOk result (self.new ≡ (reservation_row self.old (reservation_line (says_first header) (fields_of row.now))).0) }
        ensures given { OnOk result (out.new.items ≡ out.old.items ++ (reservation_row self.old (reservation_line (says_first header) (fields_of row.now))).1) }
        ensures memory { OnErr result (out.new.items ≡ out.old.items) }
    {
        match read_reservation(self.alloc, has_first(header), row) {
            Ok(reservation) => self.begin(Group::Row(Command::Reserve(reservation)), out),
            Err(LineFault::Field(field)) => {
                self.fail(field);
                Ok(())
            }
            Err(LineFault::Memory) => Err(Memory),
        }
    }

    /// The row that was read begins another command, which shows that the one at hand is complete.
    fn begin(&mut self, group: Group, out: &mut Vec<Given>) -> Result<(), Memory>
        ensures read { OnOk result (self.new ≡ (begun self.old group).0) }
        ensures given { OnOk result (out.new.items ≡ out.old.items ++ (begun self.old group).1) }
        ensures memory { OnErr result (out.new.items ≡ out.old.items) }
    {
        let complete = self.at_hand.take();
        give(complete, out)?;
        self.at_hand = Some(AtHand {
            first: self.rows,
            group,
        });
        self.open_row = Some(self.rows);
        Ok(())
    }

    /// The row that was read goes on with the command at hand.
    fn go_on(&mut self, first: u64, group: Group)
        ensures { self.new ≡ (gone_on self.old first group).0 }
    {
        self.at_hand = Some(AtHand { first, group });
    }

    /// The row that was read is bad in this field.
    fn fail(&mut self, field: u32)
        ensures { self.new ≡ (failed self.old field).0 }
    {
        self.at_hand = None;
        self.fault = Some((self.rows, field));
    }
}
