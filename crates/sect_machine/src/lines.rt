// A batch, and the lines that wait.

ghost use Rattle.std.specs.Prelude.{◌≡◌, ◌<◌, ◌-◌, ◌++◌, [], ◌∷◌, List, length, map, slice_set, take, IfOk, IsTrue};
ghost use Rattle.std.proofs.Common.{get_or};
ghost use Rattle.std.specs.List.{list_all};
ghost use Rattle.std.specs.Option.{is_some};
ghost use Rattle.sect_command.specs.declared.reply.Line.{Line as BatchLine};
ghost use Rattle.sect_command.specs.declared.reply.LineResult.TheVariants.{Waiting};
ghost use Rattle.sect_command.specs.declared.reply.Reply.TheVariants.{Batched};
ghost use Rattle.sect_people.specs.Student.{find_student};
ghost use Rattle.sect_model.specs.Batch.{
  join_by as waits_by,
  join_line as joined_by,
  join_lines as joined_by_all,
  ticket_of as least_ticket,
  with_result,
  is_unmet as is_line_unmet,
};
ghost use Rattle.sect_model.specs.Step.{batched};
ghost use Rattle.sect_model.specs.World.{World as SectionedWorld};
ghost use Rattle.sect_space.specs.Undo.{Undoable};
ghost use Rattle.sect_wait.specs.Queued.{state_of};
ghost use Rattle.sect_wait.specs.Undo.{Since as QueueSince, Undoable as QueueUndoable};
ghost use Rattle.sect_machine.specs.Answering.{answered_of, course_ask, waiting_line};
ghost use Rattle.sect_machine.specs.Tracked.{Tracked};

use sect_base::{Items, Memory, StudentId};
use sect_batch::{batch, is_unmet};
use sect_command::{Line, LineResult};
use sect_people::{Ask, CourseAsk};
use sect_search::want_of;
use sect_space::{Undo, World};
use sect_wait::{Queue, QueueUndo};
use std::alloc::Global;

/// The class of entries that a batch joins.
const BATCH_CLASS: u8 = 5;

/// The lines of a batch. Each line that isn't met, held or skipped and whose request is wait-listed joins the queue, or has
/// the ticket of an entry of its student that shares a course. Where memory runs out, some of it is done.
pub fn batch_lines(
    alloc: Global,
    world: &mut World,
    queue: &mut Queue,
    students: &[StudentId],
    undo: &mut Undo,
    queue_undo: &mut QueueUndo,
) -> Result<Items<Line>, Memory>
    requires known { IsTrue (list_all (λ s. is_some (find_student world.old.world.students s)) students.now) }
    requires undoable { Undoable world.old undo.old.backs }
    requires queue_undoable { QueueUndoable queue.old queue_undo.old }
    ensures acted { IfOk result (λ lines. batched (state_of world.old.world queue.old.queue) students.now
        ≡ record { state = state_of world.new.world queue.new.queue; reply = Batched lines }) }
    ensures tracked { Tracked world.old undo.old.backs queue.old queue_undo.old world.new undo.new.backs queue.new queue_undo.new }
{
    let lines = batch(alloc, world, students, undo)?;
    join_lines(alloc, world, queue, lines.into_vec(), queue_undo)
}

/// The lines, of which those wait that are unmet and whose requests are wait-listed. Where memory runs out, some have joined.
fn join_lines(
    alloc: Global,
    world: &World,
    queue: &mut Queue,
    lines: Vec<Line>,
    queue_undo: &mut QueueUndo,
) -> Result<Items<Line>, Memory>
    requires undoable { QueueUndoable queue.old queue_undo.old }
    ensures joined { IfOk result (λ joined. joined_by_all
        (record { state = state_of world.now.world queue.old.queue; lines = [] })
        (map (answered_of world.now.world) lines.items)
        ≡ record { state = state_of world.now.world queue.new.queue; lines = joined }) }
    ensures since { QueueSince queue.old.queue queue_undo.old queue.new.queue queue_undo.new }
    ensures undoable { QueueUndoable queue.new queue_undo.new }
{
    let mut lines = lines;
    for place in 0..lines.len() {
        let ticket = join_line(alloc, world, queue, &lines[place], queue_undo)?;
        set_ticket(&mut lines, place, ticket);
    }
    Ok(Items::from_vec(lines))
}

/// The line at the place waits, where there is a ticket.
fn set_ticket(lines: &mut Vec<Line>, place: usize, ticket: Option<u64>)
    requires place { place < length lines.old.items }
    ensures { (line : BatchLine) → lines.new.items ≡ slice_set lines.old.items place (waiting_line (get_or lines.old.items place line) ticket) }
{
    if let Some(ticket) = ticket {
        lines[place].result = LineResult::Waiting(ticket);
    }
}

/// The ticket by which the line waits, None where it doesn't.
fn join_line(
    alloc: Global,
    world: &World,
    queue: &mut Queue,
    line: &Line,
    queue_undo: &mut QueueUndo,
) -> Result<Option<u64>, Memory>
    requires undoable { QueueUndoable queue.old queue_undo.old }
    ensures joined { IfOk result (λ ticket. (lines : List BatchLine)
        → joined_by (record { state = state_of world.now.world queue.old.queue; lines = lines })
        (answered_of world.now.world line.now) ≡ record {
          state = state_of world.now.world queue.new.queue;
          lines = lines
              ++ waiting_line line.now ticket ∷ [];
        }) }
    ensures since { QueueSince queue.old.queue queue_undo.old queue.new.queue queue_undo.new }
    ensures undoable { QueueUndoable queue.new queue_undo.new }
{
    if is_unmet(&line.result) {
        join_unmet(alloc, world, queue, line, queue_undo)
    } else {
        Ok(None)
    }
}

/// The ticket by which an unmet line waits, None where it doesn't.
fn join_unmet(
    alloc: Global,
    world: &World,
    queue: &mut Queue,
    line: &Line,
    queue_undo: &mut QueueUndo,
) -> Result<Option<u64>, Memory>
    requires unmet { IsTrue (is_line_unmet line.now.result) }
    requires undoable { QueueUndoable queue.old queue_undo.old }
    ensures joined { IfOk result (λ ticket. (lines : List BatchLine)
        → joined_by (record { state = state_of world.now.world queue.old.queue; lines = lines })
        (answered_of world.now.world line.now) ≡ record {
          state = state_of world.now.world queue.new.queue;
          lines = lines
              ++ waiting_line line.now ticket ∷ [];
        }) }
    ensures since { QueueSince queue.old.queue queue_undo.old queue.new.queue queue_undo.new }
    ensures undoable { QueueUndoable queue.new queue_undo.new }
{
    match world.asks(line.student).get(place(line.rank)) {
        Some(ask) => join_ask(alloc, queue, line, ask, queue_undo),
        None => Ok(None),
    }
}

/// Where the request of a position stands.
fn place(rank: u8) -> usize
    ensures { result ≡ rank - 1 }
{
    if rank == 0 { 0 } else { rank as usize - 1 }
}

/// The ticket by which the unmet line of a request waits, None where it doesn't.
fn join_ask(
    alloc: Global,
    queue: &mut Queue,
    line: &Line,
    ask: &Ask,
    queue_undo: &mut QueueUndo,
) -> Result<Option<u64>, Memory>
    requires unmet { IsTrue (is_line_unmet line.now.result) }
    requires undoable { QueueUndoable queue.old queue_undo.old }
    ensures joined { IfOk result (λ ticket. (w : SectionedWorld) (lines : List BatchLine)
        → joined_by (record { state = state_of w queue.old.queue; lines = lines })
        (record { line = line.now; ask = course_ask ask.now })
        ≡ record { state = state_of w queue.new.queue; lines = lines ++ waiting_line line.now ticket ∷ [] }) }
    ensures since { QueueSince queue.old.queue queue_undo.old queue.new.queue queue_undo.new }
    ensures undoable { QueueUndoable queue.new queue_undo.new }
{
    match ask {
        Ask::Course(ask) => join_course(alloc, queue, line, ask, queue_undo),
        Ask::Free(_) => Ok(None),
    }
}

/// The ticket by which the unmet line of a course request waits, None where it doesn't.
fn join_course(
    alloc: Global,
    queue: &mut Queue,
    line: &Line,
    ask: &CourseAsk,
    queue_undo: &mut QueueUndo,
) -> Result<Option<u64>, Memory>
    requires unmet { IsTrue (is_line_unmet line.now.result) }
    requires undoable { QueueUndoable queue.old queue_undo.old }
    ensures joined { IfOk result (λ ticket. (w : SectionedWorld) (lines : List BatchLine)
        → joined_by (record { state = state_of w queue.old.queue; lines = lines }) (record { line = line.now; ask = ask.now })
        ≡ record { state = state_of w queue.new.queue; lines = lines ++ waiting_line line.now ticket ∷ [] }) }
    ensures since { QueueSince queue.old.queue queue_undo.old queue.new.queue queue_undo.new }
    ensures undoable { QueueUndoable queue.new queue_undo.new }
{
    if ask.wait {
        let ticket = ticket_or_join(alloc, queue, line, ask, queue_undo)?;
        Ok(Some(ticket))
    } else {
        Ok(None)
    }
}

/// The least ticket of the student's entries that share a course, or else that of a new entry.
fn ticket_or_join(
    alloc: Global,
    queue: &mut Queue,
    line: &Line,
    ask: &CourseAsk,
    queue_undo: &mut QueueUndo,
) -> Result<u64, Memory>
    requires undoable { QueueUndoable queue.old queue_undo.old }
    ensures joined { IfOk result (λ ticket. (w : SectionedWorld) (lines : List BatchLine)
        → waits_by (record { state = state_of w queue.old.queue; lines = lines }) (record { line = line.now; ask = ask.now })
        (least_ticket (state_of w queue.old.queue) line.now.student ask.now.courses)
        ≡ record { state = state_of w queue.new.queue; lines = lines ++ with_result line.now (Waiting ticket) ∷ [] }) }
    ensures since { QueueSince queue.old.queue queue_undo.old queue.new.queue queue_undo.new }
    ensures undoable { QueueUndoable queue.new queue_undo.new }
{
    match queue.waiting_ticket(line.student, ask.courses.as_slice()) {
        Some(ticket) => Ok(ticket),
        None => {
            let want = want_of(alloc, ask, line.rank)?;
            queue.join(line.student, want, None, BATCH_CLASS, queue_undo)
        }
    }
}
