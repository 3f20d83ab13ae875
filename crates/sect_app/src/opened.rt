// Opens the keeper, and asks the commands of a table.
ghost use Rattle.std.specs.Prelude.{◌≡◌, ◌≢◌, ℕ};
ghost use Rattle.std.specs.Io.KnownBytes.{IsAtEnd};
ghost use Rattle.sect_edge.specs.Causes.{Rose};
ghost use Rattle.sect_once.specs.Desks.{IsSound};
ghost use Rattle.sect_once.specs.Opening.{IsOpened};
ghost use Rattle.sect_script.specs.declared.script.RunEnd.{RunEnd};
ghost use Rattle.sect_script.specs.declared.status.Status.{Status};
ghost use Rattle.sect_script.specs.Statuses.{status_of};
ghost use Rattle.sect_app.specs.Opened.{RunsTable, TakesTable};

use crate::table::run_table;
use sect_asking::{Asker, shut_status};
use sect_base::Day;
use sect_command::Table;
use sect_edge::{Clock, Keeper, Sink, Source};
use sect_once::Desk;
use sect_script::{Status, status_of};
use sect_wire::TextObject;
use std::alloc::Global;

/// Asks the commands of a table over the history of the keeper's rows. The keeper comes back.
pub(crate) fn import_over<O: TextObject, S: Source, T: Sink, K: Keeper, C: Clock>(
    alloc: Global,
    table: Table,
    term: Option<Day>,
    first: u64,
    source: &mut S,
    sink: &mut T,
    keeper: K,
    clock: C,
) -> (Status, K)
where
    O: Drop,
    C: Drop,
    ensures takes { TakesTable O.start O.stepped O.is_row K.rows K.faults table term first keeper result.1
        (S.left source.old) (S.left source.new) (T.taken sink.old) (T.taken sink.new) (C.days clock) result.0 }
    ensures end { result.0 ≡ Status.Done → IsAtEnd (S.left source.new) }
    ensures shut { result.0 ≡ Status.KeeperFault → (source.new ≡ source.old) × (sink.new ≡ sink.old) }
    ensures bad_entry { (row : ℕ) → result.0 ≡ Status.BadEntry row → (source.new ≡ source.old) × (sink.new ≡ sink.old) }
    ensures read_fault { result.0 ≡ Status.ReadFault → Rose (S.faults source.old) (S.faults source.new) }
    ensures write_fault { result.0 ≡ Status.WriteFault → Rose (T.faults sink.old) (T.faults sink.new) }
    ensures keeper_fault { result.0 ≡ Status.KeeperFault → Rose (K.faults keeper) (K.faults result.1) }
    ensures others { result.0 ≢ Status.BadWords × (result.0 ≢ Status.LinkFault) }
{
    match Desk::<O, K>::open(alloc, keeper) {
        Ok(desk) => ask_table(alloc, table, term, first, source, sink, desk, clock),
        Err((fault, keeper)) => (shut_status(fault), keeper),
    }
}

/// Asks the commands of a table of the desk to which a keeper opened.
fn ask_table<O: TextObject, S: Source, T: Sink, K: Keeper, C: Clock>(
    alloc: Global,
    table: Table,
    term: Option<Day>,
    first: u64,
    source: &mut S,
    sink: &mut T,
    desk: Desk<O, K>,
    clock: C,
) -> (Status, K)
where
    O: Drop,
    C: Drop,
    requires sound { IsSound O.stepped O.is_row K.rows K.faults O.start desk }
    ensures runs { (keeper : K) → IsOpened O.start O.stepped O.is_row K.rows K.faults keeper desk
        → RunsTable O.start O.stepped O.is_row K.rows K.faults table term first keeper result.1
        (S.left source.old) (S.left source.new) (T.taken sink.old) (T.taken sink.new) (C.days clock) result.0 }
    ensures status { (end : RunEnd) × (result.0 ≡ status_of end) }
    ensures end { result.0 ≡ Status.Done → IsAtEnd (S.left source.new) }
    ensures read_fault { result.0 ≡ Status.ReadFault → Rose (S.faults source.old) (S.faults source.new) }
    ensures write_fault { result.0 ≡ Status.WriteFault → Rose (T.faults sink.old) (T.faults sink.new) }
{
    let mut asker = Asker::new(desk, clock);
    let end = run_table(alloc, table, term, first, source, sink, &mut asker);
    (status_of(end), asker.leave())
}
