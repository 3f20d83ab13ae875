// Opens a history, makes a text of it and writes the text.
ghost use Rattle.std.specs.Prelude.{◌≡◌, ◌≢◌, ◌⊎◌, ◌++◌, ℕ, List, Option, OnOk};
ghost use Rattle.std.specs.Thread.{IsSync};
ghost use Rattle.sect_command.specs.declared.command.Command.{Command};
ghost use Rattle.sect_command.specs.declared.reply.Reply.{Reply};
ghost use Rattle.sect_edge.specs.Causes.{Rose};
ghost use Rattle.sect_history.specs.Step.{stepped};
ghost use Rattle.sect_model.specs.World.{empty_state};
ghost use Rattle.sect_once.specs.declared.entry.Entry.{Entry};
ghost use Rattle.sect_once.specs.Desks.{IsSound};
ghost use Rattle.sect_once.specs.History.{history};
ghost use Rattle.sect_wire.specs.Laws.{IsRow};
ghost use Rattle.sect_script.specs.declared.status.Status.{Status};
ghost use Rattle.sect_asking.specs.Desk.{StaysShut};
ghost use Rattle.sect_tell.specs.Told.{PrintsBy, TellsHistory};

use sect_asking::shut_status;
use sect_base::Memory;
use sect_edge::{Failed, Keeper, Sink};
use sect_machine::Machine;
use sect_once::Desk;
use sect_script::{Status, write_all};
use std::alloc::Global;
use std::thread::Threads;

/// What is told of a history.
pub trait Teller {
    /// The text tells it of this history.
    ghost tells: { Self → List (Entry Command Reply) → List ℕ → Type 0 };

    /// Appends the text that tells it of the desk's history, where it is made by these threads or none. After `Memory` a part
    /// of it may stand at the end.
    fn text<R: Threads + Sync, K: Keeper>(
        &self,
        rt: &R,
        alloc: Global,
        desk: &Desk<Machine, K>,
        into: &mut Vec<u8>,
    ) -> Result<(), Memory>
        requires shared { IsSync R.row }
        requires sound { IsSound stepped IsRow K.rows K.faults empty_state desk.now }
        ensures { OnOk result ((text : List ℕ) × tells self.now (history desk.now.log) text
            × (into.new.items ≡ into.old.items ++ text)) };
}

/// Opens the keeper's history, and writes the text that tells it of that. The keeper comes back.
pub fn tell<R: Threads + Sync, T: Sink, K: Keeper, W: Teller>(
    rt: &R,
    alloc: Global,
    sink: &mut T,
    keeper: K,
    what: &W,
) -> (Status, K)
    ensures tells { (left : Option (List ℕ)) → TellsHistory K.rows K.faults (W.tells what.now) keeper result.1 (T.taken sink.old) (T.taken sink.new) result.0
        ⊎ StaysShut empty_state stepped IsRow K.rows K.faults keeper result.1 left left (T.taken sink.old) (T.taken sink.new) result.0 }
    ensures shut { result.0 ≡ Status.KeeperFault → sink.new ≡ sink.old }
    ensures bad_entry { (row : ℕ) → result.0 ≡ Status.BadEntry row → sink.new ≡ sink.old }
    ensures write_fault { result.0 ≡ Status.WriteFault → Rose (T.faults sink.old) (T.faults sink.new) }
    ensures keeper_fault { result.0 ≡ Status.KeeperFault → Rose (K.faults keeper) (K.faults result.1) }
    ensures others { result.0 ≢ Status.BadWords × (result.0 ≢ Status.LinkFault) × (result.0 ≢ Status.ReadFault) }
{
    match Desk::<Machine, K>::open(alloc, keeper) {
        Ok(desk) => {
            let status = write_text(rt, alloc, &desk, sink, what);
            (status, desk.leave())
        }
        Err((fault, keeper)) => (shut_status(fault), keeper),
    }
}

/// Writes the text that tells it of the desk's history.
fn write_text<R: Threads + Sync, T: Sink, K: Keeper, W: Teller>(
    rt: &R,
    alloc: Global,
    desk: &Desk<Machine, K>,
    sink: &mut T,
    what: &W,
) -> Status
    requires sound { IsSound stepped IsRow K.rows K.faults empty_state desk.now }
    ensures prints { PrintsBy (W.tells what.now (history desk.now.log)) (T.taken sink.old) (T.taken sink.new) result }
    ensures write_fault { result ≡ Status.WriteFault → Rose (T.faults sink.old) (T.faults sink.new) }
{
    let mut text = Vec::new(alloc);
    if what.text(rt, alloc, desk, &mut text).is_err() {
        return Status::Memory;
    }
    match write_all(sink, &text) {
        Ok(()) => Status::Done,
        Err(Failed) => Status::WriteFault,
    }
}
