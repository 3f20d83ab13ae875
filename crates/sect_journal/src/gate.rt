// The gate in front of a row.
ghost use Rattle.std.specs.Prelude.{◌≡◌, ◌<◌, ◌≤◌, ◌^◌, IfOk};
ghost use Rattle.sect_edge.specs.Causes.{HasCauseFor};
ghost use Rattle.sect_journal.specs.Disk.{IsSize};
ghost use Rattle.sect_journal.specs.Windows.{IsWindow};
ghost use Rattle.sect_journal.specs.Opening.{gate_of, GateIs, EndsWithin};

use crate::window::Window;
use crate::{Disk, DiskFault};

/// A gate is closed; or it has no byte, or its row doesn't fit; or a row of this length stands behind it.
pub enum Gate {
    Closed,
    Bad,
    Open(u64),
}

/// The gate in front of some bytes, of which so many are left.
pub fn gate_in(head: &[u8], left: u64) -> Gate
    ensures { result ≡ gate_of head.now left }
{
    match head {
        [] => Gate::Bad,
        [1, a, b, c, d, e, f, g, h, ..] => {
            let length = u64::from_be_bytes([*a, *b, *c, *d, *e, *f, *g, *h]);
            if 9 <= left && length <= left - 9 {
                Gate::Open(length)
            } else {
                Gate::Bad
            }
        }
        [1, ..] => Gate::Bad,
        _ => Gate::Closed,
    }
}

/// Reads a gate of a disk with so many bytes.
pub fn read_gate<D: Disk>(
    window: &mut Window,
    disk: &mut D,
    gate: u64,
    size: u64,
) -> Result<Gate, DiskFault>
    requires window { IsWindow (D.told disk.old) window.old.place window.old.bytes.items }
    requires size { IsSize (D.told disk.old) size }
    requires within { gate ≤ size }
    ensures found { IfOk result (GateIs (D.told disk.old) gate) }
    ensures fits { IfOk result (EndsWithin gate size) }
    ensures window { IsWindow (D.told disk.new) window.new.place window.new.bytes.items }
    ensures same { D.told disk.new ≡ D.told disk.old }
    ensures cause { HasCauseFor DiskFault.Failed (D.faults disk.old) (D.faults disk.new) result }
{
    let mut head = [0; 9];
    let count = window.read_at(disk, gate, &mut head)?;
    Ok(gate_in(&head[..count], size - gate))
}
