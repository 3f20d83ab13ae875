// What is done for the words.
ghost use Rattle.std.specs.Prelude.{◌≡◌, ◌≢◌, ℕ, true, false, List, Option};
ghost use Rattle.std.specs.Io.KnownBytes.{IsAtEnd};
ghost use Rattle.sect_edge.specs.Causes.{Rose};
ghost use Rattle.sect_edge.specs.Keeper.{KeepsRows};
ghost use Rattle.sect_command.specs.declared.command.Command.{Command};
ghost use Rattle.sect_command.specs.declared.reply.Reply.{Reply};
ghost use Rattle.sect_history.specs.Step.{stepped};
ghost use Rattle.sect_model.specs.World.{empty_state};
ghost use Rattle.sect_once.specs.declared.entry.Entry.{Entry};
ghost use Rattle.sect_wire.specs.Laws.{IsRow};
ghost use Rattle.sect_script.specs.declared.status.Status.{Status};
ghost use Rattle.sect_clerk.specs.Tried.{Tries};
ghost use Rattle.sect_clerk.specs.Clerk.{ClerkDoes, TellsOf, reads as reads_source};

use crate::checker::check;
use crate::log::Log;
use crate::showing::{Demand, Timetable};
use crate::{Explanation, try_lines};
use sect_clerk_words::{VERSION, Words, help_of};
use sect_edge::{Clock, Keeper, Sink, Source};
use sect_machine::Machine;
use sect_script::{Status, say};
use sect_tell::{Teller, tell};
use std::alloc::Global;
use std::thread::Threads;

/// Does what is asked for. The keeper comes back, with the rows that it had.
#[tactic(auto, using(crate::proofs::Kept::keeps_same))]
pub(crate) fn do_asked<R: Threads + Sync, S: Source, T: Sink, K: Keeper, C: Clock + Drop>(
    rt: &R,
    alloc: Global,
    asked: Words,
    source: &mut S,
    sink: &mut T,
    keeper: K,
    clock: C,
) -> (Status, K)
    ensures does { ClerkDoes K.rows K.faults asked keeper result.1
        (S.left source.old) (S.left source.new) (T.taken sink.old) (T.taken sink.new) (C.days clock) result.0 }
    ensures rows_stay { KeepsRows (K.rows keeper) (K.rows result.1) }
    ensures unread { reads_source asked ≡ false → source.new ≡ source.old }
    ensures end { reads_source asked ≡ true → result.0 ≡ Status.Done → IsAtEnd (S.left source.new) }
    ensures shut { result.0 ≡ Status.KeeperFault → (source.new ≡ source.old) × (sink.new ≡ sink.old) }
    ensures bad_entry { (row : ℕ) → result.0 ≡ Status.BadEntry row → (source.new ≡ source.old) × (sink.new ≡ sink.old) }
    ensures read_fault { result.0 ≡ Status.ReadFault → Rose (S.faults source.old) (S.faults source.new) }
    ensures write_fault { result.0 ≡ Status.WriteFault → Rose (T.faults sink.old) (T.faults sink.new) }
    ensures keeper_fault { result.0 ≡ Status.KeeperFault → Rose (K.faults keeper) (K.faults result.1) }
    ensures others { (result.0 ≢ Status.BadWords) × (result.0 ≢ Status.LinkFault) }
{
    match asked {
        Words::Check => (check(alloc, source, sink), keeper),
        Words::Demand => tell_of(rt, alloc, sink, keeper, &Demand),
        Words::Explain(place) => tell_of(rt, alloc, sink, keeper, &Explanation(place)),
        Words::Log {
            student,
            section,
            from,
        } => tell_of(
            rt,
            alloc,
            sink,
            keeper,
            &Log {
                student,
                section,
                from,
            },
        ),
        Words::Timetable(student) => tell_of(rt, alloc, sink, keeper, &Timetable(student)),
        Words::Try => try_over(alloc, source, sink, keeper, clock),
        Words::Help(topic) => (say(help_of(topic), sink), keeper),
        Words::Version => (say(VERSION, sink), keeper),
    }
}

/// Writes what is told of the keeper's history.
fn tell_of<R: Threads + Sync, T: Sink, K: Keeper, W: Teller>(
    rt: &R,
    alloc: Global,
    sink: &mut T,
    keeper: K,
    what: &W,
) -> (Status, K)
    ensures tells { (left : Option (List ℕ))
        → TellsOf K.rows K.faults (W.tells what.now) keeper result.1 left left (T.taken sink.old) (T.taken sink.new) result.0 }
    ensures rows_stay { KeepsRows (K.rows keeper) (K.rows result.1) }
    ensures shut { result.0 ≡ Status.KeeperFault → sink.new ≡ sink.old }
    ensures bad_entry { (row : ℕ) → result.0 ≡ Status.BadEntry row → sink.new ≡ sink.old }
    ensures write_fault { result.0 ≡ Status.WriteFault → Rose (T.faults sink.old) (T.faults sink.new) }
    ensures keeper_fault { result.0 ≡ Status.KeeperFault → Rose (K.faults keeper) (K.faults result.1) }
    ensures others { (result.0 ≢ Status.BadWords) × (result.0 ≢ Status.LinkFault) × (result.0 ≢ Status.ReadFault) }
{
    tell(rt, alloc, sink, keeper, what)
}

/// Answers each line of the source as it would be answered over the keeper's history.
fn try_over<S: Source, T: Sink, K: Keeper, C: Clock + Drop>(
    alloc: Global,
    source: &mut S,
    sink: &mut T,
    keeper: K,
    clock: C,
) -> (Status, K)
    ensures tries { Tries empty_state stepped IsRow K.rows K.faults keeper result.1
        (S.left source.old) (S.left source.new) (T.taken sink.old) (T.taken sink.new) (C.days clock) result.0 }
    ensures rows_stay { KeepsRows (K.rows keeper) (K.rows result.1) }
    ensures end { result.0 ≡ Status.Done → IsAtEnd (S.left source.new) }
    ensures shut { result.0 ≡ Status.KeeperFault → (source.new ≡ source.old) × (sink.new ≡ sink.old) }
    ensures bad_entry { (row : ℕ) → result.0 ≡ Status.BadEntry row → (source.new ≡ source.old) × (sink.new ≡ sink.old) }
    ensures read_fault { result.0 ≡ Status.ReadFault → Rose (S.faults source.old) (S.faults source.new) }
    ensures write_fault { result.0 ≡ Status.WriteFault → Rose (T.faults sink.old) (T.faults sink.new) }
    ensures keeper_fault { result.0 ≡ Status.KeeperFault → Rose (K.faults keeper) (K.faults result.1) }
    ensures others { (result.0 ≢ Status.BadWords) × (result.0 ≢ Status.LinkFault) }
{
    try_lines::<Machine, S, T, K, C>(alloc, source, sink, keeper, clock)
}
