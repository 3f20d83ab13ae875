// Bytes of a disk that were read at once, so that what stands near them needs no further call.
ghost use Rattle.std.specs.Prelude.{◌≡◌, ◌↔◌, ◌≤◌, ◌+◌, ◌-◌, [], IsTrue, min, take, drop, length, IfOk, OnOk};
ghost use Rattle.sect_edge.specs.Causes.{HasCauseFor};
ghost use Rattle.sect_journal.specs.Disk.{Reads};
ghost use Rattle.sect_journal.specs.Windows.{IsWindow, Reaches};

use crate::{Disk, DiskFault};
use std::alloc::Global;

/// How many bytes are read at once.
const ROOM: usize = 65_536;

/// Some bytes of a disk, as they stand from a place on.
#[derive(Drop)]
pub struct Window {
    pub place: u64,
    pub bytes: Vec<u8>,
}

impl Window {
    /// Without bytes.
    pub fn new(alloc: Global) -> Window
        ensures { result.bytes.items ≡ [] }
    {
        Window {
            place: 0,
            bytes: Vec::new(alloc),
        }
    }

    /// Forgets the bytes, since the disk is to change.
    pub fn close(&mut self)
        ensures { self.new.bytes.items ≡ [] }
    {
        self.bytes.clear();
    }

    /// So many bytes at a place stand in the window.
    fn covers(&self, at: u64, count: usize) -> bool
        ensures { IsTrue result ↔ (self.now.place ≤ at) × (at + count ≤ self.now.place + length self.now.bytes.items) }
    {
        let size = self.bytes.len() as u64;
        let count = count as u64;
        self.place <= at && count <= size && at - self.place <= size - count
    }

    /// Reads the bytes from a place on. At an error there are none.
    fn move_to<D: Disk>(&mut self, disk: &mut D, at: u64) -> Result<(), DiskFault>
        ensures place { OnOk result (self.new.place ≡ at) }
        ensures bytes { OnOk result (Reads (D.told disk.old) at 65536 (length self.new.bytes.items) self.new.bytes.items) }
        ensures window { IsWindow (D.told disk.old) self.new.place self.new.bytes.items }
        ensures same { D.told disk.new ≡ D.told disk.old }
        ensures cause { HasCauseFor DiskFault.Failed (D.faults disk.old) (D.faults disk.new) result }
    {
        self.bytes.clear();
        self.bytes.resize(ROOM, 0)?;
        match disk.read_at(at, &mut self.bytes) {
            Ok(count) => {
                self.bytes.truncate(count);
                self.place = at;
                Ok(())
            }
            Err(fault) => {
                self.bytes.clear();
                Err(fault)
            }
        }
    }

    /// Moves to a place, unless so many bytes there stand in the window.
    fn reach<D: Disk>(&mut self, disk: &mut D, at: u64, count: usize) -> Result<(), DiskFault>
        requires window { IsWindow (D.told disk.old) self.old.place self.old.bytes.items }
        requires count { count ≤ 65536 }
        ensures place { OnOk result (self.new.place ≤ at) }
        ensures reaches { OnOk result (Reaches (D.told disk.old) self.new.place self.new.bytes.items at count) }
        ensures window { IsWindow (D.told disk.old) self.new.place self.new.bytes.items }
        ensures same { D.told disk.new ≡ D.told disk.old }
        ensures cause { HasCauseFor DiskFault.Failed (D.faults disk.old) (D.faults disk.new) result }
    {
        if self.covers(at, count) {
            return Ok(());
        }
        self.move_to(disk, at)
    }

    /// As a read of the disk, by at most one call of it, and by none where the bytes stand in the window.
    pub fn read_at<D: Disk>(
        &mut self,
        disk: &mut D,
        at: u64,
        into: &mut [u8],
    ) -> Result<usize, DiskFault>
        requires { IsWindow (D.told disk.old) self.old.place self.old.bytes.items }
        ensures bound { IfOk result (λ n. n ≤ length into.new) }
        ensures bytes { IfOk result (λ n. Reads (D.told disk.old) at (length into.new) n into.new) }
        ensures window { IsWindow (D.told disk.new) self.new.place self.new.bytes.items }
        ensures same { D.told disk.new ≡ D.told disk.old }
        ensures cause { HasCauseFor DiskFault.Failed (D.faults disk.old) (D.faults disk.new) result }
    {
        if into.len() > ROOM {
            return disk.read_at(at, into);
        }
        self.reach(disk, at, into.len())?;
        Ok(copy_out(&self.bytes, at - self.place, into))
    }
}

/// Copies the bytes from a place on, as many as there are and fit. Gives their number.
pub fn copy_out(bytes: &[u8], at: u64, into: &mut [u8]) -> usize
    ensures count { result ≡ min (length into.new) (length bytes.now - at) }
    ensures bytes { take result into.new ≡ take result (drop at bytes.now) }
{
    let start = bytes.len().min(at as usize);
    let rest = &bytes[start..];
    let count = into.len().min(rest.len());
    into[..count].copy_from_slice(&rest[..count]);
    count
}
