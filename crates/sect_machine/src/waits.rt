// Who waits: a student joins the wait-list, or leaves it, and why not.

ghost use Rattle.std.specs.Prelude.{◌≡◌, IfOk, OnOk};
ghost use Rattle.sect_refuse.specs.Refused.{own_refusal as own_condition};
ghost use Rattle.sect_wait.specs.Queued.{joined, left as queue_without};
ghost use Rattle.sect_wait.specs.Undo.{Since as QueueSince, Undoable as QueueUndoable};
ghost use Rattle.sect_command.specs.declared.reply.Reply.TheVariants.{Waiting as waiting_by};

use sect_base::{CourseId, Duplicate, Memory, StudentId, Want};
use sect_command::{Command, Refusal, Reply};
use sect_wait::{Queue, QueueUndo};
use std::alloc::Global;

/// The last condition of a wait or of an unwait, where it holds: that on the student's own entries, which the queue finds without
/// looking through all. It takes no memory.
pub fn own_refusal(queue: &Queue, command: &Command) -> Option<Refusal>
    ensures { result ≡ own_condition queue.now.queue.entries command.now }
{
    match command {
        Command::Wait { student, want, .. } => {
            let ticket = queue.waiting_ticket(*student, want.courses.as_slice())?;
            Some(Refusal::WaitingAlready(ticket))
        }
        Command::Unwait { student, ticket } => {
            if queue.is_waiting(*student, *ticket) {
                None
            } else {
                Some(Refusal::NotWaiting)
            }
        }
        _ => None,
    }
}

/// A new entry joins behind the others. Where memory runs out, the queue is as before.
pub fn wait(
    alloc: Global,
    queue: &mut Queue,
    student: StudentId,
    want: &Want,
    give: Option<CourseId>,
    class: u8,
    queue_undo: &mut QueueUndo,
) -> Result<Reply, Memory>
    requires undoable { QueueUndoable queue.old queue_undo.old }
    ensures reply { IfOk result (λ reply. reply ≡ waiting_by queue.old.queue.next) }
    ensures ok { OnOk result (queue.new.queue ≡ joined queue.old.queue student want.now give class) }
    ensures since { QueueSince queue.old.queue queue_undo.old queue.new.queue queue_undo.new }
    ensures undoable { QueueUndoable queue.new queue_undo.new }
{
    let want = want.copy(alloc)?;
    let ticket = queue.join(student, want, give, class, queue_undo)?;
    Ok(Reply::Waiting(ticket))
}

/// The entry of a ticket leaves.
pub fn unwait(queue: &mut Queue, ticket: u64, queue_undo: &mut QueueUndo) -> Result<(), Memory>
    requires undoable { QueueUndoable queue.old queue_undo.old }
    ensures ok { OnOk result (queue.new.queue ≡ queue_without queue.old.queue ticket) }
    ensures since { QueueSince queue.old.queue queue_undo.old queue.new.queue queue_undo.new }
    ensures undoable { QueueUndoable queue.new queue_undo.new }
{
    let _ = queue.leave(ticket, queue_undo)?;
    Ok(())
}
