// One step: the day, the refusal or what the command does, and settling; all of it or nothing.

ghost use Rattle.std.specs.Prelude.{◌≡◌, ◌<◌, IfOk, IsTrue, OnErr, OnOk};
ghost use Rattle.std.specs.List.{list_all};
ghost use Rattle.sect_model.specs.Accepted.{CommandFits};
ghost use Rattle.sect_model.specs.Kept.{KeptState, entry_fits};
ghost use Rattle.sect_model.specs.Settle.{settle as settled_from};
ghost use Rattle.sect_model.specs.Step.{act as act_of, answered, settled_after, step as step_of};
ghost use Rattle.sect_model.specs.World.{holds as is_held, leave};
ghost use Rattle.sect_space.specs.Undo.{Since, Undoable};
ghost use Rattle.sect_wait.specs.Marked.{OthersNeedNoSearch};
ghost use Rattle.sect_wait.specs.Opened.{OthersBut};
ghost use Rattle.sect_wait.specs.Queued.{state_of};
ghost use Rattle.sect_wait.specs.Undo.{Undoable as QueueUndoable};
ghost use Rattle.sect_machine.specs.Settling.{placements};
ghost use Rattle.sect_machine.specs.Standing.{IsResting, Restores};
ghost use Rattle.sect_machine.specs.Tracked.{Tracked};

use crate::act::act;
use crate::change::set_day;
use crate::flipping::mark_day;
use crate::marking::{mark_after, mark_before};
use crate::replies::reply_after;
use crate::told::ToldStep;
use crate::undo::MachineUndo;
use crate::waits::own_refusal;
use sect_base::{Caller, CourseId, Day, Items, Memory, Steps, StudentId};
use sect_command::{Command, Reply};
use sect_model::Placed;
use sect_refuse::refusal;
use sect_space::{Undo, World};
use sect_wait::{Marks, Opened, Queue, QueueUndo, leave_course, settle_opened};
use std::alloc::Global;
use std::sync::ledger::Ledger;

/// Acts a command of a caller on a day, and settles, and tells whom settling placed; each search counts one step. What it
/// changed is recorded in the room of an earlier step's changes, which are forgotten, and so is what had opened. Where memory
/// runs out, it is taken back: world and queue are as before.
pub fn step<L: Ledger>(
    alloc: Global,
    world: &mut World,
    queue: &mut Queue,
    marks: &mut Marks,
    opened: &mut Opened,
    day: Day,
    caller: Caller,
    command: &mut Command,
    changes: &mut MachineUndo,
    steps: &mut Steps<L>,
) -> Result<ToldStep, Memory>
    requires resting { IsResting (state_of world.old.world queue.old.queue) }
    requires others { OthersNeedNoSearch world.old.world queue.old.queue.entries marks.old }
    ensures acted { IfOk result (λ r. step_of (state_of world.old.world queue.old.queue) day caller command.old
        ≡ record { state = state_of world.new.world queue.new.queue; reply = r.reply }) }
    ensures placed { IfOk result (λ r. r.placed ≡ placements (state_of world.old.world queue.old.queue) day caller command.old) }
    ensures undo { OnOk result (Restores (record { world = world.new; queue = queue.new; changes = changes.new }) (state_of world.old.world queue.old.queue)) }
    ensures world_err { OnErr result (world.new.world ≡ world.old.world) }
    ensures queue_err { OnErr result (queue.new.queue ≡ queue.old.queue) }
    ensures others { OthersNeedNoSearch world.new.world queue.new.queue.entries marks.new }
{
    world.recall_kept();
    queue.recall_kept();
    changes.clear();
    let stepped = settled(
        alloc,
        world,
        queue,
        marks,
        opened,
        day,
        caller,
        command,
        &mut changes.world,
        &mut changes.queue,
        steps,
    );
    match stepped {
        Ok((reply, placed)) => Ok(ToldStep { reply, placed }),
        Err(memory) => {
            changes.take_back(world, queue);
            marks.mark_all();
            Err(memory)
        }
    }
}

/// The day, what the command does, and settling, with whom it placed. Where memory runs out, some of it is done.
#[inline(always)]
fn settled<L: Ledger>(
    alloc: Global,
    world: &mut World,
    queue: &mut Queue,
    marks: &mut Marks,
    opened: &mut Opened,
    day: Day,
    caller: Caller,
    command: &mut Command,
    undo: &mut Undo,
    queue_undo: &mut QueueUndo,
    steps: &mut Steps<L>,
) -> Result<(Reply, Items<Placed>), Memory>
    requires kept { KeptState (state_of world.old.world queue.old.queue) }
    requires others { OthersNeedNoSearch world.old.world queue.old.queue.entries marks.old }
    requires undoable { Undoable world.old undo.old.backs }
    requires queue_undoable { QueueUndoable queue.old queue_undo.old }
    ensures acted { IfOk result (λ told. step_of (state_of world.old.world queue.old.queue) day caller command.old
        ≡ record { state = state_of world.new.world queue.new.queue; reply = told.0 }) }
    ensures placed { IfOk result (λ told. told.1 ≡ placements (state_of world.old.world queue.old.queue) day caller command.old) }
    ensures tracked { Tracked world.old undo.old.backs queue.old queue_undo.old world.new undo.new.backs queue.new queue_undo.new }
    ensures others { OnOk result (OthersNeedNoSearch world.new.world queue.new.queue.entries marks.new) }
{
    world.recall_kept();
    mark_day(world, queue, day, marks)?;
    set_day(world, day, undo)?;
    opened.clear();
    let reply = answer(
        alloc, world, queue, marks, opened, caller, command, undo, queue_undo, steps,
    )?;
    place_all(
        alloc, world, queue, marks, opened, reply, undo, queue_undo, steps,
    )
}

/// Places those who wait and can be placed, of which the reply to a wait tells, and tells whom. Where memory runs out, nobody is
/// placed.
fn place_all<L: Ledger>(
    alloc: Global,
    world: &mut World,
    queue: &mut Queue,
    marks: &mut Marks,
    opened: &mut Opened,
    reply: Reply,
    undo: &mut Undo,
    queue_undo: &mut QueueUndo,
    steps: &mut Steps<L>,
) -> Result<(Reply, Items<Placed>), Memory>
    requires fit { IsTrue (list_all (entry_fits world.old.world) queue.old.queue.entries) }
    requires others { OthersBut world.old.world queue.old.queue.entries marks.old opened.old }
    requires undoable { Undoable world.old undo.old.backs }
    requires queue_undoable { QueueUndoable queue.old queue_undo.old }
    ensures settled { IfOk result (λ told. settled_after
        (record { state = state_of world.old.world queue.old.queue; reply = reply })
        ≡ record { state = state_of world.new.world queue.new.queue; reply = told.0 }) }
    ensures placed { IfOk result (λ told. told.1 ≡ (settled_from (state_of world.old.world queue.old.queue)).placed) }
    ensures tracked { Tracked world.old undo.old.backs queue.old queue_undo.old world.new undo.new.backs queue.new queue_undo.new }
    ensures others { OnOk result (OthersNeedNoSearch world.new.world queue.new.queue.entries marks.new) }
{
    let placed = settle_opened(alloc, world, queue, marks, opened, undo, queue_undo, steps)?;
    let told = reply_after(reply, placed.as_slice());
    Ok((told, placed))
}

/// The refusal of a command, or what it does. Where memory runs out, some of it is done.
#[inline(always)]
fn answer<L: Ledger>(
    alloc: Global,
    world: &mut World,
    queue: &mut Queue,
    marks: &mut Marks,
    opened: &mut Opened,
    caller: Caller,
    command: &mut Command,
    undo: &mut Undo,
    queue_undo: &mut QueueUndo,
    steps: &mut Steps<L>,
) -> Result<Reply, Memory>
    requires kept { KeptState (state_of world.old.world queue.old.queue) }
    requires others { OthersNeedNoSearch world.old.world queue.old.queue.entries marks.old }
    requires undoable { Undoable world.old undo.old.backs }
    requires queue_undoable { QueueUndoable queue.old queue_undo.old }
    ensures acted { IfOk result (λ reply. answered (state_of world.old.world queue.old.queue) caller command.old
        ≡ record { state = state_of world.new.world queue.new.queue; reply = reply }) }
    ensures tracked { Tracked world.old undo.old.backs queue.old queue_undo.old world.new undo.new.backs queue.new queue_undo.new }
    ensures others { OnOk result (OthersBut world.new.world queue.new.queue.entries marks.new opened.new) }
{
    world.recall_kept();
    let own = own_refusal(queue, command);
    match refusal(world, queue.entries(), own, caller, command) {
        Some(refusal) => Ok(Reply::Refused(refusal)),
        None => marked_act(
            alloc, world, queue, marks, opened, command, undo, queue_undo, steps,
        ),
    }
}

/// What a command does that fits, with what it may open marked, or told where a student drops a course. Where memory runs out, some of it is done.
#[inline(always)]
fn marked_act<L: Ledger>(
    alloc: Global,
    world: &mut World,
    queue: &mut Queue,
    marks: &mut Marks,
    opened: &mut Opened,
    command: &mut Command,
    undo: &mut Undo,
    queue_undo: &mut QueueUndo,
    steps: &mut Steps<L>,
) -> Result<Reply, Memory>
    requires kept { KeptState (state_of world.old.world queue.old.queue) }
    requires fits { CommandFits world.old.world command.old }
    requires others { OthersNeedNoSearch world.old.world queue.old.queue.entries marks.old }
    requires undoable { Undoable world.old undo.old.backs }
    requires queue_undoable { QueueUndoable queue.old queue_undo.old }
    ensures acted { IfOk result (λ reply. act_of (state_of world.old.world queue.old.queue) command.old
        ≡ record { state = state_of world.new.world queue.new.queue; reply = reply }) }
    ensures tracked { Tracked world.old undo.old.backs queue.old queue_undo.old world.new undo.new.backs queue.new queue_undo.new }
    ensures others { OnOk result (OthersBut world.new.world queue.new.queue.entries marks.new opened.new) }
{
    match command {
        Command::Drop { student, course } => {
            dropped(alloc, world, queue, *student, *course, marks, opened, undo)
        }
        _ => all_marked_act(alloc, world, queue, marks, command, undo, queue_undo, steps),
    }
}

/// The student drops the course, and what that opened is told. Where memory runs out, some of it may be done.
fn dropped(
    alloc: Global,
    world: &mut World,
    queue: &Queue,
    student: StudentId,
    course: CourseId,
    marks: &mut Marks,
    opened: &mut Opened,
    undo: &mut Undo,
) -> Result<Reply, Memory>
    requires held { IsTrue (is_held world.old.world student course) }
    requires fit { IsTrue (list_all (entry_fits world.old.world) queue.now.queue.entries) }
    requires others { OthersNeedNoSearch world.old.world queue.now.queue.entries marks.old }
    requires undoable { Undoable world.old undo.old.backs }
    ensures ok { OnOk result (world.new.world ≡ leave world.old.world student course) }
    ensures reply { IfOk result (λ reply. reply ≡ Reply.Dropped course) }
    ensures others { OnOk result (OthersBut world.new.world queue.now.queue.entries marks.new opened.new) }
    ensures since { Since world.old.world undo.old.backs world.new.world undo.new.backs }
    ensures undoable { Undoable world.new undo.new.backs }
{
    *opened = leave_course(alloc, world, queue, student, course, marks, undo)?;
    Ok(Reply::Dropped(course))
}

/// What any command does that fits, with what it may open marked. Where memory runs out, some of it is done.
fn all_marked_act<L: Ledger>(
    alloc: Global,
    world: &mut World,
    queue: &mut Queue,
    marks: &mut Marks,
    command: &mut Command,
    undo: &mut Undo,
    queue_undo: &mut QueueUndo,
    steps: &mut Steps<L>,
) -> Result<Reply, Memory>
    requires kept { KeptState (state_of world.old.world queue.old.queue) }
    requires fits { CommandFits world.old.world command.old }
    requires others { OthersNeedNoSearch world.old.world queue.old.queue.entries marks.old }
    requires undoable { Undoable world.old undo.old.backs }
    requires queue_undoable { QueueUndoable queue.old queue_undo.old }
    ensures acted { IfOk result (λ reply. act_of (state_of world.old.world queue.old.queue) command.old
        ≡ record { state = state_of world.new.world queue.new.queue; reply = reply }) }
    ensures tracked { Tracked world.old undo.old.backs queue.old queue_undo.old world.new undo.new.backs queue.new queue_undo.new }
    ensures others { OnOk result (OthersNeedNoSearch world.new.world queue.new.queue.entries marks.new) }
{
    mark_before(world, queue, command, marks)?;
    let reply = act(alloc, world, queue, command, undo, queue_undo, steps)?;
    mark_after(world, queue, command, &reply, undo, marks)?;
    Ok(reply)
}
