// Opens the keeper, and tries the lines of the source.
ghost use Rattle.std.specs.Prelude.{◌≡◌, ◌≢◌, ℕ};
ghost use Rattle.std.specs.Io.KnownBytes.{IsAtEnd};
ghost use Rattle.sect_edge.specs.Causes.{Rose};
ghost use Rattle.sect_once.specs.Desks.{IsSound};
ghost use Rattle.sect_once.specs.Opening.{IsOpened};
ghost use Rattle.sect_script.specs.declared.script.RunEnd.{RunEnd};
ghost use Rattle.sect_script.specs.declared.status.Status.{Status};
ghost use Rattle.sect_script.specs.Statuses.{status_of};
ghost use Rattle.sect_clerk.specs.Tried.{Tries, TriesLines};

use crate::trier::Trier;
use sect_asking::shut_status;
use sect_edge::{Clock, Keeper, Sink, Source};
use sect_once::{Desk, replay};
use sect_script::{Status, run_lines, status_of};
use sect_wire::TextObject;
use std::alloc::Global;

/// Answers the lines of the source into the sink as a run would that has only this line, over the history of the keeper's
/// rows. Nothing is added to them, and the keeper comes back.
pub fn try_lines<O: TextObject, S: Source, T: Sink, K: Keeper, C: Clock>(
    alloc: Global,
    source: &mut S,
    sink: &mut T,
    keeper: K,
    clock: C,
) -> (Status, K)
where
    O: Drop,
    C: Drop,
    ensures tries { Tries O.start O.stepped O.is_row K.rows K.faults keeper result.1
        (S.left source.old) (S.left source.new) (T.taken sink.old) (T.taken sink.new) (C.days clock) result.0 }
    ensures end { result.0 ≡ Status.Done → IsAtEnd (S.left source.new) }
    ensures shut { result.0 ≡ Status.KeeperFault → (source.new ≡ source.old) × (sink.new ≡ sink.old) }
    ensures bad_entry { (row : ℕ) → result.0 ≡ Status.BadEntry row → (source.new ≡ source.old) × (sink.new ≡ sink.old) }
    ensures read_fault { result.0 ≡ Status.ReadFault → Rose (S.faults source.old) (S.faults source.new) }
    ensures write_fault { result.0 ≡ Status.WriteFault → Rose (T.faults sink.old) (T.faults sink.new) }
    ensures keeper_fault { result.0 ≡ Status.KeeperFault → Rose (K.faults keeper) (K.faults result.1) }
    ensures others { result.0 ≢ Status.BadWords × (result.0 ≢ Status.LinkFault) }
{
    match Desk::<O, K>::open(alloc, keeper) {
        Ok(desk) => try_over(alloc, source, sink, desk, clock),
        Err((fault, keeper)) => (shut_status(fault), keeper),
    }
}

/// Tries the lines of the source on the desk to which a keeper opened.
fn try_over<O: TextObject, S: Source, T: Sink, K: Keeper, C: Clock>(
    alloc: Global,
    source: &mut S,
    sink: &mut T,
    desk: Desk<O, K>,
    clock: C,
) -> (Status, K)
where
    O: Drop,
    C: Drop,
    requires sound { IsSound O.stepped O.is_row K.rows K.faults O.start desk }
    ensures tries { (keeper : K) → IsOpened O.start O.stepped O.is_row K.rows K.faults keeper desk
        → TriesLines O.start O.stepped O.is_row K.rows K.faults keeper result.1
        (S.left source.old) (S.left source.new) (T.taken sink.old) (T.taken sink.new) (C.days clock) result.0 }
    ensures status { (end : RunEnd) × (result.0 ≡ status_of end) }
    ensures end { result.0 ≡ Status.Done → IsAtEnd (S.left source.new) }
    ensures read_fault { result.0 ≡ Status.ReadFault → Rose (S.faults source.old) (S.faults source.new) }
    ensures write_fault { result.0 ≡ Status.WriteFault → Rose (T.faults sink.old) (T.faults sink.new) }
{
    match replay(alloc, &desk, desk.acted()) {
        Ok(object) => {
            let mut trier = Trier::new(desk, object, clock);
            let end = run_lines(alloc, source, sink, &mut trier);
            (status_of(end), trier.close())
        }
        Err(_) => (Status::Memory, desk.close()),
    }
}
