// What a command does that isn't refused, before settling.

ghost use Rattle.std.specs.Prelude.{◌≡◌, IfOk, OnOk};
ghost use Rattle.sect_model.specs.Accepted.{CommandFits};
ghost use Rattle.sect_model.specs.Step.{act as act_of};
ghost use Rattle.sect_space.specs.Undo.{Undoable};
ghost use Rattle.sect_wait.specs.Queued.{state_of};
ghost use Rattle.sect_machine.specs.Acting.{amended_or, IsLeft};
ghost use Rattle.sect_machine.specs.Opening.{RecordsLimit};
ghost use Rattle.sect_machine.specs.Tracked.{Tracked};
ghost use Rattle.sect_wait.specs.Undo.{Undoable as QueueUndoable};

use crate::{limits, lines, moves, reserved, rows, waits};
use sect_base::{Memory, Steps};
use sect_command::{Command, Reply};
use sect_space::{Undo, World};
use sect_wait::{Queue, QueueUndo};
use std::alloc::Global;
use std::sync::ledger::Ledger;

/// Acts a command that fits, of which the world takes over the row of an offering, of a student, or the requests. Where memory
/// runs out, some of it is done.
pub fn act<L: Ledger>(
    alloc: Global,
    world: &mut World,
    queue: &mut Queue,
    command: &mut Command,
    undo: &mut Undo,
    queue_undo: &mut QueueUndo,
    steps: &mut Steps<L>,
) -> Result<Reply, Memory>
    requires fits { CommandFits world.old.world command.old }
    requires undoable { Undoable world.old undo.old.backs }
    requires queue_undoable { QueueUndoable queue.old queue_undo.old }
    ensures acted { IfOk result (λ reply. act_of (state_of world.old.world queue.old.queue) command.old
        ≡ record { state = state_of world.new.world queue.new.queue; reply = reply }) }
    ensures left { OnOk result (IsLeft command.old command.new) }
    ensures recorded { OnOk result (RecordsLimit world.old.world command.old undo.old.backs undo.new.backs) }
    ensures tracked { Tracked world.old undo.old.backs queue.old queue_undo.old world.new undo.new.backs queue.new queue_undo.new }
{
    match command {
        Command::Offering(row) => amended(rows::offering(alloc, world, row, undo)),
        Command::Student(row) => amended(rows::student(alloc, world, row, undo)),
        Command::Requests { student, asks } => amended(rows::requests(
            alloc, world, *student, asks, undo,
        )),
        Command::Reserve(row) => amended(reserved::reserve(alloc, world, row, undo)),
        Command::Unreserve(id) => amended(rows::unreserve(world, *id, undo)),
        Command::Expire {
            reservation,
            expiry,
        } => amended(rows::expire(world, *reservation, *expiry, undo)),
        Command::Restrict(row) => amended(reserved::restrict(alloc, world, row, undo)),
        Command::Unrestrict(id) => amended(rows::unrestrict(world, *id, undo)),
        Command::SetLimit { cap, limit } => amended(limits::set_limit(world, *cap, *limit, undo)),
        Command::Cancel(id) => amended(limits::cancel(world, *id, undo)),
        Command::Enrol {
            student,
            want,
            budget,
        } => moves::enrol(alloc, world, *student, want, *budget, undo, steps),
        Command::Drop { student, course } => {
            limits::drop_course(world, *student, *course, undo)?;
            Ok(Reply::Dropped(*course))
        }
        Command::Swap {
            student,
            give,
            take,
            budget,
        } => moves::swap(alloc, world, *student, give, take, *budget, undo, steps),
        Command::Wait {
            student,
            want,
            give,
            class,
        } => waits::wait(alloc, queue, *student, want, *give, *class, queue_undo),
        Command::Unwait { student: _, ticket } => amended(waits::unwait(
            queue, *ticket, queue_undo,
        )),
        Command::Batch { students } => {
            let lines = lines::batch_lines(
                alloc,
                world,
                queue,
                students.as_slice(),
                undo,
                queue_undo,
            )?;
            Ok(Reply::Batched(lines))
        }
    }
}

/// The reply to a change that was made.
fn amended(done: Result<(), Memory>) -> Result<Reply, Memory>
    ensures { result ≡ amended_or done }
{
    match done {
        Ok(()) => Ok(Reply::Amended),
        Err(memory) => Err(memory),
    }
}
