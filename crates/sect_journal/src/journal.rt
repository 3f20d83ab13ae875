// A keeper of rows on a disk.
ghost use Rattle.std.specs.Prelude.{◌≡◌, ◌<◌, ◌≤◌, ◌+◌, ◌-◌, ◌^◌, ◌++◌, ◌∷◌, [], true, false, is_ok, length, map, vec_capacity, All, Contains, OnOk, OnErr};
ghost use Rattle.sect_edge.specs.Causes.{HasCauseFor};
ghost use Rattle.sect_journal.specs.declared.journal.JournalFault.TheVariants as bad;
ghost use Rattle.sect_journal.specs.Faults.{opening_fault};
ghost use Rattle.sect_journal.specs.Disk.{Stays, after_write, after_sync};
ghost use Rattle.sect_journal.specs.Text.{gate_byte, records_of};
ghost use Rattle.sect_journal.specs.Standing.{Appends, Leaves, LeavesNow, appended, gate_behind, shut, spans_of, where_told};

use crate::through::write_through;
use crate::window::Window;
use crate::{Disk, DiskFault};
use std::alloc::{AllocError, AllocFailed, Global};
use std::marker::Model;
use std::mem;

/// Why a journal didn't open.
#[derive(Clone, Copy, Debug, PartialEq, Eq)]
pub enum JournalFault {
    /// The disk failed, and counted it.
    Failed,
    /// The first gate that has no byte, or whose row doesn't fit, stands at this place.
    BadJournal(u64),
    /// Want of memory.
    Memory,
}

impl From<DiskFault> for JournalFault {
    ghost from_gives = { λ fault e. e ≡ opening_fault fault };

    fn from(fault: DiskFault) -> Self {
        match fault {
            DiskFault::Failed => JournalFault::Failed,
            DiskFault::Memory => JournalFault::Memory,
        }
    }
}

impl<T: Drop> From<AllocFailed<T>> for JournalFault {
    ghost from_gives = { λ _ e. e ≡ bad.Memory };

    fn from(_: AllocFailed<T>) -> Self {
        JournalFault::Memory
    }
}

/// Where a row stands on the disk.
#[derive(Clone, Copy)]
pub struct Span {
    pub start: u64,
    pub length: u64,
}

/// Rows on a disk, of which a crash takes none that was acknowledged.
pub struct Journal<D: Disk> {
    pub(crate) alloc: Global,
    pub(crate) disk: D,
    pub(crate) spans: Vec<Span>,
    pub(crate) gate: u64,
    pub(crate) torn: bool,
    pub(crate) window: Window,
    pub(crate) buffer: Vec<u8>,
}

/// It is written out, so that a caller does not prove again how each part is dropped.
impl<D: Disk + Drop> Drop for Journal<D> {
    fn drop(self) {
        let Journal {
            alloc: _,
            disk: _,
            spans: _,
            gate: _,
            torn: _,
            window: _,
            buffer: _,
        } = self;
    }
}

impl<D: Disk> Model for Journal<D> {
    ghost use Rattle.std.specs.Prelude.{◌<◌, ◌^◌, ◌-◌, length, vec_capacity};
    ghost use Rattle.sect_journal.specs.Standing.{Standing, rows_at, loose_at, IsKept};
    ghost use Rattle.sect_journal.specs.Windows.{IsWindow};

    ghost Value = { Standing D };

    ghost view = { λ j. record {
      disk = j.disk;
      rows = rows_at (D.told j.disk) j.spans.items;
      loose = loose_at (D.told j.disk) j.gate j.torn;
      gate = j.gate;
      torn = j.torn;
      room = vec_capacity j.spans - length j.spans.items;
    } };

    ghost invariant = { λ j. (j.gate < 2 ^ 62) × IsKept (D.told j.disk) j.spans.items j.gate j.torn
        × IsWindow (D.told j.disk) j.window.place j.window.bytes.items };
}

/// The gate in front of these rows.
fn next_gate(rows: &[&[u8]]) -> u8
    ensures { result ≡ gate_byte (map (λ row. row.now) rows.now) }
{
    if rows.is_empty() { 0 } else { 1 }
}

/// What stands behind the gate of the first of these rows.
pub fn fill(into: &mut Vec<u8>, rows: &[&[u8]]) -> Result<(), AllocError>
    ensures { OnOk result (into.new.items ≡ records_of (map (λ row. row.now) rows.now)) }
{
    into.clear();
    let mut rest = rows;
    while let [row, more @ ..] = rest {
        into.reserve(row.len().saturating_add(9))?;
        into.extend_from_slice(&(row.len() as u64).to_be_bytes())?;
        into.extend_from_slice(row)?;
        into.push(next_gate(more))?;
        rest = more;
    }
    Ok(())
}

/// Notes where these rows stand behind a gate. Gives the place of the gate behind them.
fn push_spans(spans: &mut Vec<Span>, gate: u64, rows: &[&[u8]]) -> u64
    requires room { length rows.now ≤ vec_capacity spans.old - length spans.old.items }
    requires bound { gate_behind gate (map (λ row. row.now) rows.now) < 2 ^ 62 }
    ensures spans { spans.new.items ≡ spans.old.items ++ spans_of gate (map (λ row. row.now) rows.now) }
    ensures gate { result ≡ gate_behind gate (map (λ row. row.now) rows.now) }
{
    let mut gate = gate;
    let mut rest = rows;
    while let [row, more @ ..] = rest {
        let length = row.len() as u64;
        match spans.push(Span {
            start: gate + 9,
            length,
        }) {
            Ok(()) => {}
            Err(_) => unreachable!(),
        }
        gate += 9 + length;
        rest = more;
    }
    gate
}

impl<D: Disk> Journal<D> {
    /// The disk.
    pub fn close(self) -> D
        ensures { result ≡ self.disk }
    {
        let Journal {
            alloc: _,
            disk,
            spans: _,
            gate: _,
            torn: _,
            window: _,
            buffer: _,
        } = self;
        disk
    }

    /// What the type keeps.
    fn recall_sound(&self)
        ensures { LeavesNow self.now.rows self.now.loose (D.told self.now.disk) }
    {
        let _ = &self.alloc;
    }

    /// Closes the present gate, where that is to be done first.
    fn settle(&mut self) -> Result<(), DiskFault>
        ensures ok { OnOk result ((self.new.torn ≡ false) × (self.new.loose ≡ [])
            × (D.told self.new.disk ≡ shut (D.told self.old.disk) self.old.gate self.old.torn)) }
        ensures err { OnErr result (self.new.loose ≡ self.old.loose) }
        ensures rows { self.new.rows ≡ self.old.rows }
        ensures gate { self.new.gate ≡ self.old.gate }
        ensures room { self.new.room ≡ self.old.room }
        ensures moments { Stays (D.told self.old.disk) (D.told self.new.disk) (Leaves self.old.rows self.old.loose) }
        ensures cause { HasCauseFor DiskFault.Failed (D.faults self.old.disk) (D.faults self.new.disk) result }
    {
        if !self.torn {
            return Ok(());
        }
        self.window.close();
        write_through(&mut self.disk, self.gate, &[0])?;
        self.torn = false;
        Ok(())
    }

    /// Writes the records of a group behind the present gate, which is then to be opened, or to be closed first.
    fn stage(&mut self, text: &[u8], rows: &[&[u8]]) -> Result<(), DiskFault>
        requires rest { self.old.torn ≡ false }
        requires some { 0 < length rows.now }
        requires text { text.now ≡ records_of (map (λ row. row.now) rows.now) }
        ensures ok { OnOk result ((self.new.torn ≡ true)
            × (D.told self.new.disk ≡ after_sync (after_write (D.told self.old.disk) (self.old.gate + 1) text.now))) }
        ensures loose { OnOk result (self.new.loose ≡ where_told (D.told self.new.disk) (map (λ row. row.now) rows.now ∷ [])) }
        ensures bound { OnOk result (gate_behind self.old.gate (map (λ row. row.now) rows.now) < 2 ^ 62) }
        ensures err { OnErr result (self.new.loose ≡ []) }
        ensures rows { self.new.rows ≡ self.old.rows }
        ensures gate { self.new.gate ≡ self.old.gate }
        ensures room { self.new.room ≡ self.old.room }
        ensures moments { Stays (D.told self.old.disk) (D.told self.new.disk) (Leaves self.old.rows (map (λ row. row.now) rows.now ∷ [])) }
        ensures cause { HasCauseFor DiskFault.Failed (D.faults self.old.disk) (D.faults self.new.disk) result }
    {
        self.window.close();
        write_through(&mut self.disk, self.gate + 1, text)?;
        self.torn = true;
        Ok(())
    }

    /// Opens the present gate: the rows behind it count from now on.
    fn admit(&mut self, rows: &[&[u8]]) -> Result<(), DiskFault>
        requires torn { self.old.torn ≡ true }
        requires rows { self.old.loose ≡ where_told (D.told self.old.disk) (map (λ row. row.now) rows.now ∷ []) }
        requires bound { gate_behind self.old.gate (map (λ row. row.now) rows.now) < 2 ^ 62 }
        requires room { length rows.now ≤ self.old.room }
        ensures told { OnOk result (D.told self.new.disk ≡ after_sync (after_write (D.told self.old.disk) self.old.gate (1 ∷ []))) }
        ensures rows { OnOk result (self.new.rows ≡ self.old.rows ++ where_told (D.told self.old.disk) (map (λ row. row.now) rows.now)) }
        ensures loose { OnOk result (self.new.loose ≡ []) }
        ensures same_rows { OnErr result (self.new.rows ≡ self.old.rows) }
        ensures same_loose { OnErr result (self.new.loose ≡ self.old.loose) }
        ensures moments { Stays (D.told self.old.disk) (D.told self.new.disk) (Leaves self.old.rows self.old.loose) }
        ensures cause { HasCauseFor DiskFault.Failed (D.faults self.old.disk) (D.faults self.new.disk) result }
    {
        self.window.close();
        write_through(&mut self.disk, self.gate, &[1])?;
        self.gate = push_spans(&mut self.spans, self.gate, rows);
        self.torn = false;
        Ok(())
    }

    /// Makes room in memory for so many rows more.
    fn make_room(&mut self, count: usize) -> Result<(), AllocError>
        ensures ok { OnOk result (count ≤ self.new.room) }
        ensures same { self.new ≡ record self.old { room = self.new.room } }
    {
        self.spans.reserve(count)
    }

    /// Adds a group of rows. What that wants of memory is there before the disk is written.
    fn add(&mut self, text: &mut Vec<u8>, rows: &[&[u8]]) -> Result<(), DiskFault>
        requires some { 0 < length rows.now }
        ensures told { OnOk result (D.told self.new.disk ≡ appended (D.told self.old.disk) self.old.gate self.old.torn (map (λ row. row.now) rows.now)) }
        ensures rows { OnOk result (self.new.rows ≡ self.old.rows ++ where_told (D.told self.old.disk) (map (λ row. row.now) rows.now)) }
        ensures same_rows { OnErr result (self.new.rows ≡ self.old.rows) }
        ensures loose { OnOk result (self.new.loose ≡ []) }
        ensures may_be_loose { OnErr result (All (Contains (self.old.loose ++ map (λ row. row.now) rows.now ∷ [])) self.new.loose) }
        ensures moments { Stays (D.told self.old.disk) (D.told self.new.disk) (Leaves self.old.rows (self.old.loose ++ map (λ row. row.now) rows.now ∷ [])) }
        ensures cause { HasCauseFor DiskFault.Failed (D.faults self.old.disk) (D.faults self.new.disk) result }
    {
        self.recall_sound();
        fill(text, rows)?;
        self.make_room(rows.len())?;
        self.settle()?;
        self.stage(text, rows)?;
        self.admit(rows)
    }

    /// Takes the buffer out, whose bytes no contract sees.
    fn take_buffer(&mut self) -> Vec<u8>
        ensures { self.new ≡ self.old }
    {
        mem::replace(&mut self.buffer, Vec::new(self.alloc))
    }

    /// Puts a buffer back, whose bytes no contract sees.
    fn give_buffer(&mut self, text: Vec<u8>)
        ensures { self.new ≡ self.old }
    {
        self.buffer = text;
    }

    /// Of a group without rows: closes the present gate, where that is to be done first, and no more.
    pub(crate) fn keep_none(&mut self) -> Result<(), DiskFault>
        ensures told { OnOk result (D.told self.new.disk ≡ shut (D.told self.old.disk) self.old.gate self.old.torn) }
        ensures appends { Appends D.told [] (is_ok result) self.old self.new }
        ensures cause { HasCauseFor DiskFault.Failed (D.faults self.old.disk) (D.faults self.new.disk) result }
    {
        self.recall_sound();
        let result = self.settle();
        self.recall_sound();
        result
    }

    /// The same, with a buffer that is used again.
    pub(crate) fn keep(&mut self, rows: &[&[u8]]) -> Result<(), DiskFault>
        requires some { 0 < length rows.now }
        ensures told { OnOk result (D.told self.new.disk ≡ appended (D.told self.old.disk) self.old.gate self.old.torn (map (λ row. row.now) rows.now)) }
        ensures appends { Appends D.told (map (λ row. row.now) rows.now) (is_ok result) self.old self.new }
        ensures cause { HasCauseFor DiskFault.Failed (D.faults self.old.disk) (D.faults self.new.disk) result }
    {
        let mut text = self.take_buffer();
        let result = self.add(&mut text, rows);
        self.give_buffer(text);
        self.recall_sound();
        result
    }
}
