// Settling: the first entry by class and then by ticket that can be placed is placed, again and again, until none can be.

ghost use Rattle.std.specs.Prelude.{◌≡◌, ◌≤◌, ◌+◌, ◌*◌, [], length, IfOk, OnOk, OnErr, IsTrue};
ghost use Rattle.std.specs.List.{list_all};
ghost use Rattle.sect_model.specs.Kept.{entry_fits};
ghost use Rattle.sect_model.specs.Settle.{settle as settled, is_settled};
ghost use Rattle.sect_space.specs.Undo.{Since, Undoable};
ghost use Rattle.sect_wait.specs.Marked.{OthersNeedNoSearch, no_marks};
ghost use Rattle.sect_wait.specs.Opened.{OthersBut};
ghost use Rattle.sect_wait.specs.Queued.{state_of};
ghost use Rattle.sect_wait.specs.Undo.{Since as QueueSince, Undoable as QueueUndoable};
ghost use Rattle.sect_wait.specs.Placing.{placed_of as placed_from};
ghost use Rattle.sect_wait.specs.Touched.{count_touched};

use crate::marks::Marks;
use crate::next::{Candidate, next};
use crate::opened::{Opened, shut};
use crate::place::place;
use crate::queue::Queue;
use crate::undo::QueueUndo;
use sect_base::{Items, Memory, Steps};
use sect_model::Placed;
use sect_space::{Undo, World};
use std::alloc::Global;
use std::sync::ledger::Ledger;

/// Places the entries that can be placed, one after another, and tells them in that order. The entries that aren't marked
/// have no move, and aren't tried; each placement marks those that it may give one. `steps` counts a search for each entry at
/// most that is touched, and as many again for each placement. Where memory runs out, world, queue and
/// what is recorded are as before, and all entries are marked.
pub fn settle<L: Ledger>(
    alloc: Global,
    world: &mut World,
    queue: &mut Queue,
    marks: &mut Marks,
    undo: &mut Undo,
    queue_undo: &mut QueueUndo,
    steps: &mut Steps<L>,
) -> Result<Items<Placed>, Memory>
    requires fit { IsTrue (list_all (entry_fits world.old.world) queue.old.queue.entries) }
    requires others { OthersNeedNoSearch world.old.world queue.old.queue.entries marks.old }
    requires undoable { Undoable world.old undo.old.backs }
    requires queue_undoable { QueueUndoable queue.old queue_undo.old }
    ensures settled { IfOk result (λ placed. settled (state_of world.old.world queue.old.queue)
        ≡ record { state = state_of world.new.world queue.new.queue; placed = placed }) }
    ensures nobody_left { OnOk result (IsTrue (is_settled (state_of world.new.world queue.new.queue))) }
    ensures others { OthersNeedNoSearch world.new.world queue.new.queue.entries marks.new }
    ensures unmarked { marks.old ≡ no_marks marks.old.spent → steps.new ≡ steps.old }
    ensures steps { IfOk result (λ placed. steps.new ≤ steps.old + (length placed + 1)
        * count_touched world.old.world queue.old.queue.entries marks.old [] placed) }
    ensures err { OnErr result (world.new.world ≡ world.old.world) }
    ensures queue_err { OnErr result (queue.new.queue ≡ queue.old.queue) }
    ensures not_recorded { OnErr result (undo.new.backs ≡ undo.old.backs) }
    ensures queue_not_recorded { OnErr result (queue_undo.new ≡ queue_undo.old) }
    ensures since { Since world.old.world undo.old.backs world.new.world undo.new.backs }
    ensures queue_since { QueueSince queue.old.queue queue_undo.old queue.new.queue queue_undo.new }
    ensures undoable { Undoable world.new undo.new.backs }
    ensures queue_undoable { QueueUndoable queue.new queue_undo.new }
{
    let mut opened = Opened::none(alloc);
    settle_opened(
        alloc,
        world,
        queue,
        marks,
        &mut opened,
        undo,
        queue_undo,
        steps,
    )
}

/// The same after a leaving, which told what it opened: once that is closed again, those who want it and give nothing up have no
/// move, as they had none before it, and aren't tried. Where memory runs out, world, queue and
/// what is recorded are as before, and all entries are marked.
pub fn settle_opened<L: Ledger>(
    alloc: Global,
    world: &mut World,
    queue: &mut Queue,
    marks: &mut Marks,
    opened: &mut Opened,
    undo: &mut Undo,
    queue_undo: &mut QueueUndo,
    steps: &mut Steps<L>,
) -> Result<Items<Placed>, Memory>
    requires fit { IsTrue (list_all (entry_fits world.old.world) queue.old.queue.entries) }
    requires others { OthersBut world.old.world queue.old.queue.entries marks.old opened.old }
    requires undoable { Undoable world.old undo.old.backs }
    requires queue_undoable { QueueUndoable queue.old queue_undo.old }
    ensures settled { IfOk result (λ placed. settled (state_of world.old.world queue.old.queue)
        ≡ record { state = state_of world.new.world queue.new.queue; placed = placed }) }
    ensures nobody_left { OnOk result (IsTrue (is_settled (state_of world.new.world queue.new.queue))) }
    ensures others { OthersNeedNoSearch world.new.world queue.new.queue.entries marks.new }
    ensures unmarked { marks.old ≡ no_marks marks.old.spent → opened.old.courses.items ≡ [] → steps.new ≡ steps.old }
    ensures steps { IfOk result (λ placed. steps.new ≤ steps.old + (length placed + 1)
        * count_touched world.old.world queue.old.queue.entries marks.old opened.old.courses.items placed) }
    ensures err { OnErr result (world.new.world ≡ world.old.world) }
    ensures queue_err { OnErr result (queue.new.queue ≡ queue.old.queue) }
    ensures not_recorded { OnErr result (undo.new.backs ≡ undo.old.backs) }
    ensures queue_not_recorded { OnErr result (queue_undo.new ≡ queue_undo.old) }
    ensures since { Since world.old.world undo.old.backs world.new.world undo.new.backs }
    ensures queue_since { QueueSince queue.old.queue queue_undo.old queue.new.queue queue_undo.new }
    ensures undoable { Undoable world.new undo.new.backs }
    ensures queue_undoable { QueueUndoable queue.new queue_undo.new }
{
    if is_idle(marks, opened) {
        return Ok(Items::from_vec(Vec::new(alloc)));
    }
    world.recall_kept();
    let made = undo.len();
    let gone = queue_undo.len();
    let placed = place_all(alloc, world, queue, marks, opened, undo, queue_undo, steps);
    if placed.is_err() {
        world.undo_to(undo, made);
        queue.undo_to(queue_undo, gone);
        marks.mark_all();
    }
    placed
}

/// Whether nobody must be tried.
fn is_idle(marks: &Marks, opened: &Opened) -> bool
    ensures none { IsTrue result → marks.now ≡ no_marks marks.now.spent }
    ensures closed { IsTrue result → opened.now.courses.items ≡ [] }
    ensures only { marks.now ≡ no_marks marks.now.spent → opened.now.courses.items ≡ [] → IsTrue result }
{
    marks.is_none() && opened.courses.is_empty()
}

/// Places the entries that can be placed. Where memory runs out, some may have been placed.
fn place_all<L: Ledger>(
    alloc: Global,
    world: &mut World,
    queue: &mut Queue,
    marks: &mut Marks,
    opened: &mut Opened,
    undo: &mut Undo,
    queue_undo: &mut QueueUndo,
    steps: &mut Steps<L>,
) -> Result<Items<Placed>, Memory>
    requires fit { IsTrue (list_all (entry_fits world.old.world) queue.old.queue.entries) }
    requires others { OthersBut world.old.world queue.old.queue.entries marks.old opened.old }
    requires undoable { Undoable world.old undo.old.backs }
    requires queue_undoable { QueueUndoable queue.old queue_undo.old }
    ensures settled { IfOk result (λ placed. settled (state_of world.old.world queue.old.queue)
        ≡ record { state = state_of world.new.world queue.new.queue; placed = placed }) }
    ensures others { OnOk result (OthersNeedNoSearch world.new.world queue.new.queue.entries marks.new) }
    ensures steps { IfOk result (λ placed. steps.new ≤ steps.old + (length placed + 1)
        * count_touched world.old.world queue.old.queue.entries marks.old opened.old.courses.items placed) }
    ensures since { Since world.old.world undo.old.backs world.new.world undo.new.backs }
    ensures queue_since { QueueSince queue.old.queue queue_undo.old queue.new.queue queue_undo.new }
    ensures undoable { Undoable world.new undo.new.backs }
    ensures queue_undoable { QueueUndoable queue.new queue_undo.new }
{
    world.recall_kept();
    queue.recall_kept();
    let mut placed = Vec::new(alloc);
    'rounds: loop {
        shut(world, queue, opened, marks)?;
        match next(alloc, world, queue, marks, opened, steps)? {
            Some(candidate) => {
                place(world, queue, &candidate, marks, opened, undo, queue_undo)?;
                placed.push(placed_of(&candidate))?;
            }
            None => return Ok(Items::from_vec(placed)),
        }
    }
}

/// What the placement gives the student.
fn placed_of(candidate: &Candidate) -> Placed
    ensures { result ≡ placed_from candidate.now }
{
    Placed {
        ticket: candidate.ticket,
        student: candidate.student,
        choice: candidate.choice,
    }
}
