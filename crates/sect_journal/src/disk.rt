// A disk: bytes that are read and written at places, and are durable after a sync.
ghost use Rattle.std.specs.Prelude.{◌≡◌, ◌<◌, ◌≤◌, ◌+◌, ◌^◌, ℕ, length, Option, Some, IfOk, OnOk, OnErr, IsErrOf};
ghost use Rattle.sect_journal.specs.declared.disk.DiskFault.TheVariants as fault;
ghost use Rattle.sect_edge.specs.Causes.{HasCauseFor};
ghost use Rattle.sect_journal.specs.Disk.{Told, IsImage, IsSize, Reads, IsWithin, Tears, after_write, after_sync};

use std::alloc::{AllocError, AllocFailed};

/// Why a call of a disk did nothing, or not all.
#[derive(Clone, Copy, Debug, PartialEq, Eq)]
pub enum DiskFault {
    /// The disk failed, and counted it.
    Failed,
    /// Want of memory.
    Memory,
}

impl From<AllocError> for DiskFault {
    ghost from_gives = { λ _ e. e ≡ fault.Memory };

    fn from(_: AllocError) -> Self {
        DiskFault::Memory
    }
}

impl<T: Drop> From<AllocFailed<T>> for DiskFault {
    ghost from_gives = { λ _ e. e ≡ fault.Memory };

    fn from(_: AllocFailed<T>) -> Self {
        DiskFault::Memory
    }
}

/// Fewer than 2^62 bytes. A write that would pass that bound fails.
pub trait Disk {
    /// What it has and had, where the disk tells that.
    ghost told: { Self → Option Told };

    /// How often it has failed.
    ghost faults: { Self → ℕ };

    /// The number of bytes.
    fn size(&mut self) -> Result<u64, DiskFault>
        ensures size { IfOk result (IsSize (told self.old)) }
        ensures bound { IfOk result (λ n. n < 2 ^ 62) }
        ensures same { told self.new ≡ told self.old }
        ensures cause { HasCauseFor DiskFault.Failed (faults self.old) (faults self.new) result };

    /// Reads the bytes from a place on: as many as there are, up to the length of `into`. Gives their number.
    fn read_at(&mut self, at: u64, into: &mut [u8]) -> Result<usize, DiskFault>
        ensures bound { IfOk result (λ n. n ≤ length into.new) }
        ensures bytes { IfOk result (λ n. Reads (told self.old) at (length into.new) n into.new) }
        ensures same { told self.new ≡ told self.old }
        ensures cause { HasCauseFor DiskFault.Failed (faults self.old) (faults self.new) result };

    /// Writes the piece at a place, over what is there and past the end. A write that failed may have stopped anywhere.
    fn write_at(&mut self, at: u64, piece: &[u8]) -> Result<(), DiskFault>
        requires { IsWithin (told self.old) at }
        ensures ok { OnOk result (told self.new ≡ after_write (told self.old) at piece.now) }
        ensures bound { OnOk result (at + length piece.now < 2 ^ 62) }
        ensures failed { IsErrOf result DiskFault.Failed → Tears (told self.old) at (length piece.now) (told self.new) }
        ensures memory { IsErrOf result DiskFault.Memory → told self.new ≡ told self.old }
        ensures cause { HasCauseFor DiskFault.Failed (faults self.old) (faults self.new) result };

    /// Makes durable all that a read gives.
    fn sync(&mut self) -> Result<(), DiskFault>
        ensures ok { OnOk result (told self.new ≡ after_sync (told self.old)) }
        ensures err { OnErr result (told self.new ≡ told self.old) }
        ensures cause { HasCauseFor DiskFault.Failed (faults self.old) (faults self.new) result };

    /// What a read gives is an image that a crash may leave.
    ghost reads_an_image: { (disk : Self) (t : Told) → told disk ≡ Some t → IsImage t.now t.now.seen };
}
