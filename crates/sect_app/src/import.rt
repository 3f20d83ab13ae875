// The import of a table over the machine's history.
ghost use Rattle.std.specs.Prelude.{◌≡◌, ◌≢◌, ℕ};
ghost use Rattle.std.specs.Io.KnownBytes.{IsAtEnd};
ghost use Rattle.sect_edge.specs.Causes.{Rose};
ghost use Rattle.sect_script.specs.declared.status.Status.{Status};
ghost use Rattle.sect_app.specs.Import.{Imports};

use crate::opened::import_over;
use sect_base::Day;
use sect_command::Table;
use sect_edge::{Clock, Keeper, Sink, Source};
use sect_history::laws::replays_are_good;
use sect_machine::Machine;
use sect_script::Status;
use std::alloc::Global;

/// Asks the commands of a table as registrar 0, by rising numbers from the first on, over the history of the keeper's rows,
/// and writes the lines of their answers. Meetings may say their weeks by two days of the term. The keeper comes back.
pub fn import_table<S: Source, T: Sink, K: Keeper, C: Clock + Drop>(
    alloc: Global,
    table: Table,
    term: Option<Day>,
    first: u64,
    source: &mut S,
    sink: &mut T,
    keeper: K,
    clock: C,
) -> (Status, K)
    ensures imports { Imports K.rows K.faults table term first keeper result.1
        (S.left source.old) (S.left source.new) (T.taken sink.old) (T.taken sink.new) (C.days clock) result.0 }
    ensures end { result.0 ≡ Status.Done → IsAtEnd (S.left source.new) }
    ensures shut { result.0 ≡ Status.KeeperFault → (source.new ≡ source.old) × (sink.new ≡ sink.old) }
    ensures bad_entry { (row : ℕ) → result.0 ≡ Status.BadEntry row → (source.new ≡ source.old) × (sink.new ≡ sink.old) }
    ensures read_fault { result.0 ≡ Status.ReadFault → Rose (S.faults source.old) (S.faults source.new) }
    ensures write_fault { result.0 ≡ Status.WriteFault → Rose (T.faults sink.old) (T.faults sink.new) }
    ensures keeper_fault { result.0 ≡ Status.KeeperFault → Rose (K.faults keeper) (K.faults result.1) }
    ensures others { result.0 ≢ Status.BadWords × (result.0 ≢ Status.LinkFault) }
{
    replays_are_good();
    import_over::<Machine, _, _, _, _>(alloc, table, term, first, source, sink, keeper, clock)
}
