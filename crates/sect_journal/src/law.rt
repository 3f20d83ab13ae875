// What a crash leaves at any moment, in a call or between two.
ghost use Rattle.std.specs.Prelude.{[], ◌++◌, List, Option};
ghost use Rattle.sect_journal.specs.Disk.{Told, Stays};
ghost use Rattle.sect_journal.specs.Standing.{Standing, Leaves, LeavesNow};
ghost use Rattle.sect_journal.specs.Opening.{IsOpened};
ghost use Rattle.sect_journal.specs.Runs.{Call, Takes, IsRun, acknowledged, unanswered, begun};

use crate::Disk;

/// For any list of calls from an opened journal on, a crash at any moment leaves only images that open, to the
/// acknowledged rows, or to these and one whole group of rows more, of an append that was begun after the last
/// acknowledged one and wasn't answered Ok.
pub fn no_acknowledged_row_is_lost<D: Disk>()
    ensures between { (before : Option Told) (start end : Standing D) (calls : List Call) → IsOpened D.told before start → IsRun D.told calls start end
        → LeavesNow (acknowledged start.rows calls) (unanswered [] calls) (D.told end.disk) }
    ensures within { (before : Option Told) (start end next : Standing D) (calls : List Call) (call : Call)
        → IsOpened D.told before start → IsRun D.told calls start end → Takes D.told call end next
        → Stays (D.told end.disk) (D.told next.disk) (Leaves (acknowledged start.rows calls) (unanswered [] calls ++ begun call)) }
{}
