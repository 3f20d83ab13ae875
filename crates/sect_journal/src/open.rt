// How a journal is made and opened.
ghost use Rattle.std.specs.Prelude.{◌≡◌, ◌<◌, ◌≤◌, ◌^◌, ◌⊎◌, ◌∷◌, [], ℕ, length, IfOk, IfErr, OnOk, OnErr};
ghost use Rattle.sect_edge.specs.Causes.{HasCauseFor};
ghost use Rattle.sect_journal.specs.Disk.{IsSize, Tears, after_write, after_sync};
ghost use Rattle.sect_journal.specs.Opening.{EndsAt, IsBadAt, IsOpened, HasRisenFor, IsLeftAtStart, formatted, prepared};
ghost use Rattle.sect_journal.specs.Standing.{LeavesNow};

use crate::gate::{Gate, read_gate};
use crate::journal::{Journal, Span};
use crate::through::write_through;
use crate::window::Window;
use crate::{Disk, DiskFault, JournalFault};
use std::alloc::Global;

/// Reads the gates of a disk with so many bytes, up to the one that ends the journal.
pub fn find_end<D: Disk>(
    alloc: Global,
    disk: &mut D,
    size: u64,
) -> Result<(Vec<Span>, u64), JournalFault>
    requires size { IsSize (D.told disk.old) size }
    requires bound { size < 2 ^ 62 }
    ensures end { IfOk result (λ end. EndsAt (D.told disk.old) end.0.items end.1) }
    ensures bound { IfOk result (λ end. end.1 < 2 ^ 62) }
    ensures bad { IfErr result (IsBadAt (D.told disk.old)) }
    ensures same { D.told disk.new ≡ D.told disk.old }
    ensures cause { HasCauseFor JournalFault.Failed (D.faults disk.old) (D.faults disk.new) result }
{
    let mut spans = Vec::new(alloc);
    let mut window = Window::new(alloc);
    let mut gate = 0;
    loop {
        match read_gate(&mut window, disk, gate, size)? {
            Gate::Closed => return Ok((spans, gate)),
            Gate::Bad => return Err(JournalFault::BadJournal(gate)),
            Gate::Open(length) => {
                spans.push(Span {
                    start: gate + 9,
                    length,
                })?;
                gate += 9 + length;
            }
        }
    }
}

/// Syncs, and reads the gates.
pub fn scan<D: Disk>(alloc: Global, disk: &mut D) -> Result<(Vec<Span>, u64), JournalFault>
    ensures end { IfOk result (λ end. EndsAt (after_sync (D.told disk.old)) end.0.items end.1) }
    ensures bound { IfOk result (λ end. end.1 < 2 ^ 62) }
    ensures bad { IfErr result (IsBadAt (after_sync (D.told disk.old))) }
    ensures synced { OnOk result (D.told disk.new ≡ after_sync (D.told disk.old)) }
    ensures err { OnErr result ((D.told disk.new ≡ D.told disk.old) ⊎ (D.told disk.new ≡ after_sync (D.told disk.old))) }
    ensures cause { HasCauseFor JournalFault.Failed (D.faults disk.old) (D.faults disk.new) result }
{
    disk.sync()?;
    let size = disk.size()?;
    find_end(alloc, disk, size)
}

impl<D: Disk> Journal<D> {
    /// Opens a journal: syncs, and then reads where its rows stand. Gives the disk back at an error. `BadJournal` where
    /// the first gate that has no byte, or whose row doesn't fit, stands at that place.
    pub fn open(alloc: Global, disk: D) -> Result<Journal<D>, (JournalFault, D)>
        ensures opened { IfOk result (IsOpened D.told (D.told disk)) }
        ensures bad { IfErr result (λ e. IsBadAt (D.told disk) e.0) }
        ensures err { IfErr result (λ e. (D.told e.1 ≡ D.told disk) ⊎ (D.told e.1 ≡ after_sync (D.told disk))) }
        ensures cause { IfErr result (λ e. HasRisenFor JournalFault.Failed (D.faults disk) (D.faults e.1) e.0) }
        ensures faults { IfOk result (λ journal. D.faults disk ≤ D.faults journal.disk) }
    {
        let mut disk = disk;
        match scan(alloc, &mut disk) {
            Ok((spans, gate)) => Ok(Journal {
                alloc,
                disk,
                spans,
                gate,
                torn: false,
                window: Window::new(alloc),
                buffer: Vec::new(alloc),
            }),
            Err(fault) => Err((fault, disk)),
        }
    }

    /// Writes a journal without rows: a closed gate at place 0, and syncs. A crash during it may leave any bytes.
    pub fn format(disk: &mut D) -> Result<(), DiskFault>
        ensures ok { OnOk result (D.told disk.new ≡ formatted (D.told disk.old)) }
        ensures rows { OnOk result (LeavesNow [] [] (D.told disk.new)) }
        ensures err { OnErr result ((D.told disk.new ≡ D.told disk.old) ⊎ Tears (D.told disk.old) 0 1 (D.told disk.new)) }
        ensures cause { HasCauseFor DiskFault.Failed (D.faults disk.old) (D.faults disk.new) result }
    {
        write_through(disk, 0, &[0])
    }

    /// Formats a disk of size 0, and opens the journal. Gives the disk back at an error, with no row lost that stood on it.
    pub fn start(alloc: Global, disk: D) -> Result<Journal<D>, (JournalFault, D)>
        ensures opened { IfOk result (IsOpened D.told (prepared (D.told disk))) }
        ensures bad { IfErr result (λ e. IsBadAt (prepared (D.told disk)) e.0) }
        ensures err { IfErr result (λ e. IsLeftAtStart (D.told disk) (D.told e.1)) }
        ensures cause { IfErr result (λ e. HasRisenFor JournalFault.Failed (D.faults disk) (D.faults e.1) e.0) }
        ensures faults { IfOk result (λ journal. D.faults disk ≤ D.faults journal.disk) }
    {
        let mut disk = disk;
        match prepare(&mut disk) {
            Ok(()) => Journal::open(alloc, disk),
            Err(fault) => Err((JournalFault::from(fault), disk)),
        }
    }
}

/// Formats a disk of size 0.
fn prepare<D: Disk>(disk: &mut D) -> Result<(), DiskFault>
    ensures ok { OnOk result (D.told disk.new ≡ prepared (D.told disk.old)) }
    ensures err { OnErr result ((D.told disk.new ≡ D.told disk.old) ⊎ (IsSize (D.told disk.old) 0 × Tears (D.told disk.old) 0 1 (D.told disk.new))) }
    ensures cause { HasCauseFor DiskFault.Failed (D.faults disk.old) (D.faults disk.new) result }
{
    if disk.size()? == 0 {
        Journal::format(disk)?;
    }
    Ok(())
}
