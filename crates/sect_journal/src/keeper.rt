// A journal as a keeper of rows.
ghost use Rattle.std.specs.Prelude.{◌≡◌, ◌∷◌, [], map, IfOk, OnOk, OnErr, is_ok};
ghost use Rattle.sect_edge.specs.declared.edge.KeepFault.{KeepFault};
ghost use Rattle.sect_edge.specs.Causes.{HasCauseFor};
ghost use Rattle.sect_edge.specs.Keeper.{KeepsRows, AddsRow, FindsRow, CountsRows};
ghost use Rattle.sect_journal.specs.Faults.{keeping_fault};
ghost use Rattle.sect_journal.specs.Standing.{Appends, Looks, appended, told_rows};

use crate::{Disk, DiskFault, Journal};
use sect_edge::{KeepFault, Keeper};

impl From<DiskFault> for KeepFault {
    ghost from_gives = { λ fault e. e ≡ keeping_fault fault };

    fn from(fault: DiskFault) -> Self {
        match fault {
            DiskFault::Failed => KeepFault::Failed,
            DiskFault::Memory => KeepFault::Memory,
        }
    }
}

impl<D: Disk> Journal<D> {
    /// Reads a row where it stands. False also where the disk, which doesn't tell, has fewer bytes than it had.
    fn find(&mut self, at: u64, into: &mut Vec<u8>) -> Result<bool, DiskFault>
        ensures found { IfOk result (λ found. FindsRow (told_rows (D.told self.old.disk) self.old.rows) at found into.new.items) }
        ensures looks { Looks D.told self.old self.new }
        ensures cause { HasCauseFor DiskFault.Failed (D.faults self.old.disk) (D.faults self.new.disk) result }
    {
        let Some(&span) = self.spans.get(at as usize) else {
            return Ok(false);
        };
        into.clear();
        into.resize(span.length as usize, 0)?;
        let count = self.window.read_at(&mut self.disk, span.start, into)?;
        Ok(count == into.len())
    }
}

impl<D: Disk> Journal<D> {
    /// Appends a group of rows, all of them or none: after a crash at any moment too. Four calls of the disk for any number
    /// of rows, and six where a gate is to be closed first; of no rows none, or two. At an error the rows are as before, and
    /// the group may stand behind them after a crash, until an append is answered Ok.
    pub fn append_all(&mut self, rows: &[&[u8]]) -> Result<(), KeepFault>
        ensures told { OnOk result (D.told self.new.disk ≡ appended (D.told self.old.disk) self.old.gate self.old.torn (map (λ row. row.now) rows.now)) }
        ensures appends { Appends D.told (map (λ row. row.now) rows.now) (is_ok result) self.old self.new }
        ensures cause { HasCauseFor KeepFault.Failed (D.faults self.old.disk) (D.faults self.new.disk) result }
    {
        if rows.is_empty() {
            self.keep_none()?;
        } else {
            self.keep(rows)?;
        }
        Ok(())
    }
}

impl<D: Disk> Keeper for Journal<D> {
    ghost rows = { λ journal. told_rows (D.told journal.disk) journal.rows };

    ghost faults = { λ journal. D.faults journal.disk };

    /// Four calls of the disk, and six where a gate is to be closed first.
    fn append(&mut self, row: &[u8]) -> Result<(), KeepFault>
        ensures ok { OnOk result (AddsRow (told_rows (D.told self.old.disk) self.old.rows) (told_rows (D.told self.new.disk) self.new.rows) row.now) }
        ensures err { OnErr result (KeepsRows (told_rows (D.told self.old.disk) self.old.rows) (told_rows (D.told self.new.disk) self.new.rows)) }
        ensures cause { HasCauseFor KeepFault.Failed (D.faults self.old.disk) (D.faults self.new.disk) result }

        // What was written, and what a crash leaves at each moment and afterwards.
        ensures told { OnOk result (D.told self.new.disk ≡ appended (D.told self.old.disk) self.old.gate self.old.torn (row.now ∷ [])) }
        ensures appends { Appends D.told (row.now ∷ []) (is_ok result) self.old self.new }
    {
        self.keep(&[row])?;
        Ok(())
    }

    /// At most one call of the disk, and none where the row stands near one that was read before, with no append since.
    fn row(&mut self, at: u64, into: &mut Vec<u8>) -> Result<bool, KeepFault>
        ensures found { IfOk result (λ found. FindsRow (told_rows (D.told self.old.disk) self.old.rows) at found into.new.items) }
        ensures rows { KeepsRows (told_rows (D.told self.old.disk) self.old.rows) (told_rows (D.told self.new.disk) self.new.rows) }
        ensures cause { HasCauseFor KeepFault.Failed (D.faults self.old.disk) (D.faults self.new.disk) result }
        ensures looks { Looks D.told self.old self.new }
    {
        Ok(self.find(at, into)?)
    }

    /// No call of the disk.
    fn len(&mut self) -> Result<u64, KeepFault>
        ensures count { IfOk result (CountsRows (told_rows (D.told self.old.disk) self.old.rows)) }
        ensures rows { KeepsRows (told_rows (D.told self.old.disk) self.old.rows) (told_rows (D.told self.new.disk) self.new.rows) }
        ensures cause { HasCauseFor KeepFault.Failed (D.faults self.old.disk) (D.faults self.new.disk) result }
        ensures same { self.new ≡ self.old }
    {
        Ok(self.spans.len() as u64)
    }
}
