// A write that is made durable at once.
ghost use Rattle.std.specs.Prelude.{◌≡◌, ◌<◌, ◌+◌, ◌^◌, ◌⊎◌, length, OnOk, OnErr};
ghost use Rattle.sect_edge.specs.Causes.{HasCauseFor};
ghost use Rattle.sect_journal.specs.Disk.{IsWithin, Tears, after_write, after_sync};

use crate::{Disk, DiskFault};

/// Writes a piece at a place, and syncs. At an error the write was made, or a part of it, or none.
pub fn write_through<D: Disk>(disk: &mut D, at: u64, piece: &[u8]) -> Result<(), DiskFault>
    requires { IsWithin (D.told disk.old) at }
    ensures ok { OnOk result (D.told disk.new ≡ after_sync (after_write (D.told disk.old) at piece.now)) }
    ensures bound { OnOk result (at + length piece.now < 2 ^ 62) }
    ensures err { OnErr result ((D.told disk.new ≡ D.told disk.old) ⊎ Tears (D.told disk.old) at (length piece.now) (D.told disk.new)) }
    ensures cause { HasCauseFor DiskFault.Failed (D.faults disk.old) (D.faults disk.new) result }
{
    disk.write_at(at, piece)?;
    disk.sync()
}
