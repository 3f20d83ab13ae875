// What is done for the words.
ghost use Rattle.std.specs.Prelude.{◌≡◌, ◌≢◌, ◌⊎◌, ◌<◌, ◌≤◌, ℕ, true, false, List, None, Option, length};
ghost use Rattle.std.specs.Io.KnownBytes.{IsAtEnd};
ghost use Rattle.sect_edge.specs.Causes.{Rose};
ghost use Rattle.sect_history.specs.Step.{stepped};
ghost use Rattle.sect_model.specs.World.{empty_state};
ghost use Rattle.sect_wire.specs.Laws.{IsRow};
ghost use Rattle.sect_script.specs.declared.status.Status.{Status};
ghost use Rattle.sect_usage.specs.declared.words.Words.{Words};
ghost use Rattle.sect_asking.specs.Desk.{StaysShut};
ghost use Rattle.sect_tell.specs.Told.{TellsHistory};
ghost use Rattle.sect_app.specs.Returns.{ComesBack};
ghost use Rattle.sect_app.specs.Top.{first_days, reads as reads_source, sessions_in};
ghost use Rattle.sect_app.specs.Machine.{DeskDoes};
ghost use Rattle.sect_app.specs.Made.{Makes};
ghost use Rattle.sect_usage.specs.Laws.{IsInRange};

use crate::import::import_table;
use crate::maker::make;
use sect_asking::run;
use sect_command::Table;
use sect_edge::{Clock, Keeper, Sink, Source};
use sect_history::laws::replays_are_good;
use sect_machine::Machine;
use sect_return::{a_state_reads_back, tables_return};
use sect_script::{Status, say};
use sect_tell::{Export, Plan, Report, Survey, audit, tell};
use sect_usage::{Words, help_of, version};
use std::alloc::Global;
use std::thread::Threads;

/// Does what is asked for, but for serving. The keeper comes back.
pub(crate) fn do_asked<R: Threads + Sync, S: Source, T: Sink, K: Keeper, C: Clock + Drop>(
    rt: &R,
    alloc: Global,
    asked: Words,
    source: &mut S,
    sink: &mut T,
    keeper: K,
    clock: C,
) -> (Status, K)
    requires range { IsInRange asked }
    requires alone { sessions_in asked ≡ None }
    ensures does { DeskDoes K.rows K.faults asked keeper result.1
        (S.left source.old) (S.left source.new) (T.taken sink.old) (T.taken sink.new) (C.days clock) result.0 }
    ensures unread { reads_source asked ≡ false → source.new ≡ source.old }
    ensures end { reads_source asked ≡ true → result.0 ≡ Status.Done → IsAtEnd (S.left source.new) }
    ensures shut { result.0 ≡ Status.KeeperFault → (source.new ≡ source.old) × (sink.new ≡ sink.old) }
    ensures bad_entry { (row : ℕ) → result.0 ≡ Status.BadEntry row → (source.new ≡ source.old) × (sink.new ≡ sink.old) }
    ensures read_fault { result.0 ≡ Status.ReadFault → Rose (S.faults source.old) (S.faults source.new) }
    ensures write_fault { result.0 ≡ Status.WriteFault → Rose (T.faults sink.old) (T.faults sink.new) }
    ensures keeper_fault { result.0 ≡ Status.KeeperFault → Rose (K.faults keeper) (K.faults result.1) }
    ensures others { result.0 ≢ Status.BadWords × (result.0 ≢ Status.LinkFault) }
{
    match asked {
        Words::Run => run_desk(alloc, source, sink, keeper, clock),
        Words::Import { table, first, term } => {
            import_table(alloc, table, term, first, source, sink, keeper, clock)
        }
        Words::Serve { .. } => unreachable!(),
        Words::Audit => audit(rt, alloc, sink, keeper),
        Words::Report(query) => tell(rt, alloc, sink, keeper, &Report(query)),
        Words::Export(table) => export_table(rt, alloc, table, sink, keeper),
        Words::Plan { student, budget } => tell(rt, alloc, sink, keeper, &Plan { student, budget }),
        Words::Survey => tell(rt, alloc, sink, keeper, &Survey),
        Words::Make(offerings) => (make_on(alloc, offerings, sink, clock), keeper),
        Words::Help(topic) => (say(help_of(topic), sink), keeper),
        Words::Version => (say(version(), sink), keeper),
    }
}

/// Writes the rows of a table of the keeper's history.
fn export_table<R: Threads + Sync, T: Sink, K: Keeper>(
    rt: &R,
    alloc: Global,
    table: Table,
    sink: &mut T,
    keeper: K,
) -> (Status, K)
    ensures exports { (left : Option (List ℕ)) → TellsHistory K.rows K.faults (ComesBack table) keeper result.1 (T.taken sink.old) (T.taken sink.new) result.0
        ⊎ StaysShut empty_state stepped IsRow K.rows K.faults keeper result.1 left left (T.taken sink.old) (T.taken sink.new) result.0 }
    ensures shut { result.0 ≡ Status.KeeperFault → sink.new ≡ sink.old }
    ensures bad_entry { (row : ℕ) → result.0 ≡ Status.BadEntry row → sink.new ≡ sink.old }
    ensures write_fault { result.0 ≡ Status.WriteFault → Rose (T.faults sink.old) (T.faults sink.new) }
    ensures keeper_fault { result.0 ≡ Status.KeeperFault → Rose (K.faults keeper) (K.faults result.1) }
    ensures others { result.0 ≢ Status.BadWords × (result.0 ≢ Status.LinkFault) × (result.0 ≢ Status.ReadFault) }
{
    a_state_reads_back();
    tables_return();
    tell(rt, alloc, sink, keeper, &Export(table))
}

/// Makes the offerings on the clock's day, and writes the summary.
fn make_on<T: Sink, C: Clock + Drop>(
    alloc: Global,
    offerings: u32,
    sink: &mut T,
    clock: C,
) -> Status
    requires first { 1 ≤ offerings }
    requires bound { offerings ≤ 100 }
    ensures makes { Makes offerings (C.days clock) (T.taken sink.old) (T.taken sink.new) result }
    ensures write_fault { result ≡ Status.WriteFault → Rose (T.faults sink.old) (T.faults sink.new) }
    ensures others { result ≢ Status.BadWords × (result ≢ Status.LinkFault) × (result ≢ Status.ReadFault) × (result ≢ Status.KeeperFault) }
    ensures no_entry { (row : ℕ) → result ≢ Status.BadEntry row }
{
    let mut clock = clock;
    make(alloc, offerings, sink, &mut clock)
}

/// Answers the lines of the source over the machine's history.
fn run_desk<S: Source, T: Sink, K: Keeper, C: Clock + Drop>(
    alloc: Global,
    source: &mut S,
    sink: &mut T,
    keeper: K,
    clock: C,
) -> (Status, K)
    ensures runs { DeskDoes K.rows K.faults Words.Run keeper result.1
        (S.left source.old) (S.left source.new) (T.taken sink.old) (T.taken sink.new) (C.days clock) result.0 }
    ensures end { result.0 ≡ Status.Done → IsAtEnd (S.left source.new) }
    ensures shut { result.0 ≡ Status.KeeperFault → (source.new ≡ source.old) × (sink.new ≡ sink.old) }
    ensures bad_entry { (row : ℕ) → result.0 ≡ Status.BadEntry row → (source.new ≡ source.old) × (sink.new ≡ sink.old) }
    ensures read_fault { result.0 ≡ Status.ReadFault → Rose (S.faults source.old) (S.faults source.new) }
    ensures write_fault { result.0 ≡ Status.WriteFault → Rose (T.faults sink.old) (T.faults sink.new) }
    ensures keeper_fault { result.0 ≡ Status.KeeperFault → Rose (K.faults keeper) (K.faults result.1) }
    ensures others { result.0 ≢ Status.BadWords × (result.0 ≢ Status.LinkFault) }
{
    replays_are_good();
    run::<Machine, S, T, K, C>(alloc, source, sink, keeper, clock)
}

/// The first of the clocks.
pub(crate) fn first_of<C: Clock + Drop>(clocks: Vec<C>) -> C
    requires { 0 < length clocks.items }
    ensures { C.days result ≡ first_days C.days clocks.items }
{
    let mut clocks = clocks;
    clocks.swap_remove(0)
}
