// The placement of an entry: the course to give up leaves, the student is enrolled, and the entry leaves the queue.

ghost use Rattle.std.specs.Prelude.{◌≡◌, ◌==◌, ◌||◌, false, [], ◌∷◌, List, filter, OnOk, IsTrue};
ghost use Rattle.std.specs.Option.{option_map_or};
ghost use Rattle.std.specs.List.{list_all};
ghost use Rattle.sect_model.specs.declared.held.Waiting.{Waiting as Entry};
ghost use Rattle.sect_model.specs.Freer.{frees_some, touches};
ghost use Rattle.sect_model.specs.World.{leave_all, holds as is_held};
ghost use Rattle.sect_model.specs.Fits.{Fits, changed};
ghost use Rattle.sect_model.specs.Kept.{entry_fits};
ghost use Rattle.sect_space.specs.Undo.{Since, Undoable};
ghost use Rattle.sect_wait.specs.Opened.{OthersBut};
ghost use Rattle.sect_wait.specs.Queued.{left as queue_without};
ghost use Rattle.sect_wait.specs.Undo.{Since as QueueSince, Undoable as QueueUndoable};
ghost use Rattle.sect_wait.specs.Placing.{given_up, moved, enrolment_of};
ghost use Rattle.sect_wait.specs.Touched.{SeeksOnly, candidate_concerns, is_concerned};

use crate::marking::{frees, mark_enrolment, mark_leaving};
use crate::marks::Marks;
use crate::next::Candidate;
use crate::opened::{Opened, fall_back};
use crate::queue::Queue;
use crate::undo::QueueUndo;
use sect_base::{Choice, CourseId, Memory, StudentId};
use sect_model::{Change, Enrolment};
use sect_space::{Undo, World};

/// Makes the candidate's move, and takes its entry out of the queue. Where memory runs out, some of the changes are made.
pub fn place(
    world: &mut World,
    queue: &mut Queue,
    candidate: &Candidate,
    marks: &mut Marks,
    opened: &mut Opened,
    undo: &mut Undo,
    queue_undo: &mut QueueUndo,
) -> Result<(), Memory>
    requires fits { Fits (given_up world.old.world candidate.now) (Change.Enrol (enrolment_of candidate.now)) }
    requires fit { IsTrue (list_all (entry_fits world.old.world) queue.old.queue.entries) }
    requires others { OthersBut world.old.world queue.old.queue.entries marks.old opened.old }
    requires undoable { Undoable world.old undo.old.backs }
    requires queue_undoable { QueueUndoable queue.old queue_undo.old }
    ensures world { OnOk result (world.new.world ≡ moved world.old.world candidate.now) }
    ensures queue { OnOk result (queue.new.queue ≡ queue_without queue.old.queue candidate.now.ticket) }
    ensures others { OnOk result (OthersBut world.new.world queue.new.queue.entries marks.new opened.new) }
    ensures only { OnOk result (SeeksOnly (candidate_concerns world.old.world candidate.now) queue.old.queue.entries
        marks.old opened.old.courses.items marks.new opened.new.courses.items) }
    ensures since { Since world.old.world undo.old.backs world.new.world undo.new.backs }
    ensures queue_since { QueueSince queue.old.queue queue_undo.old queue.new.queue queue_undo.new }
    ensures undoable { Undoable world.new undo.new.backs }
    ensures queue_undoable { QueueUndoable queue.new queue_undo.new }
{
    place_in_world(world, queue, candidate, marks, opened, undo)?;
    let _ = queue.leave(candidate.ticket, queue_undo)?;
    Ok(())
}

/// Makes the candidate's move.
fn place_in_world(
    world: &mut World,
    queue: &Queue,
    candidate: &Candidate,
    marks: &mut Marks,
    opened: &mut Opened,
    undo: &mut Undo,
) -> Result<(), Memory>
    requires fits { Fits (given_up world.old.world candidate.now) (Change.Enrol (enrolment_of candidate.now)) }
    requires fit { IsTrue (list_all (entry_fits world.old.world) queue.now.queue.entries) }
    requires others { OthersBut world.old.world queue.now.queue.entries marks.old opened.old }
    requires undoable { Undoable world.old undo.old.backs }
    ensures ok { OnOk result (world.new.world ≡ moved world.old.world candidate.now) }
    ensures others { OnOk result (OthersBut world.new.world queue.now.queue.entries marks.new opened.new) }
    ensures only { OnOk result (SeeksOnly (candidate_concerns world.old.world candidate.now) queue.now.queue.entries
        marks.old opened.old.courses.items marks.new opened.new.courses.items) }
    ensures since { Since world.old.world undo.old.backs world.new.world undo.new.backs }
    ensures undoable { Undoable world.new undo.new.backs }
{
    give_up(world, queue, candidate, marks, opened, undo)?;
    enrol(world, queue, candidate, marks, opened, undo)
}

/// Takes the student out of the course to give up, where the student holds it.
fn give_up(
    world: &mut World,
    queue: &Queue,
    candidate: &Candidate,
    marks: &mut Marks,
    opened: &mut Opened,
    undo: &mut Undo,
) -> Result<(), Memory>
    requires fit { IsTrue (list_all (entry_fits world.old.world) queue.now.queue.entries) }
    requires others { OthersBut world.old.world queue.now.queue.entries marks.old opened.old }
    requires undoable { Undoable world.old undo.old.backs }
    ensures ok { OnOk result (world.new.world ≡ given_up world.old.world candidate.now) }
    ensures fit { OnOk result (IsTrue (list_all (entry_fits world.new.world) queue.now.queue.entries)) }
    ensures others { OnOk result (OthersBut world.new.world queue.now.queue.entries marks.new opened.new) }
    ensures only { OnOk result (SeeksOnly
        (λ e. candidate.now.student.0 == e.student.0 || option_map_or (touches world.old.world e.want) candidate.now.give false)
        queue.now.queue.entries marks.old opened.old.courses.items marks.new opened.new.courses.items) }
    ensures since { Since world.old.world undo.old.backs world.new.world undo.new.backs }
    ensures undoable { Undoable world.new undo.new.backs }
{
    match candidate.give {
        Some(course) => leave(world, queue, candidate.student, course, marks, opened, undo),
        None => Ok(()),
    }
}

/// Takes the student out of the course, where the student holds it.
fn leave(
    world: &mut World,
    queue: &Queue,
    student: StudentId,
    course: CourseId,
    marks: &mut Marks,
    opened: &mut Opened,
    undo: &mut Undo,
) -> Result<(), Memory>
    requires fit { IsTrue (list_all (entry_fits world.old.world) queue.now.queue.entries) }
    requires others { OthersBut world.old.world queue.now.queue.entries marks.old opened.old }
    requires undoable { Undoable world.old undo.old.backs }
    ensures ok { OnOk result (world.new.world ≡ leave_all world.old.world student (filter (is_held world.old.world student) (course ∷ []))) }
    ensures fit { OnOk result (IsTrue (list_all (entry_fits world.new.world) queue.now.queue.entries)) }
    ensures others { OnOk result (OthersBut world.new.world queue.now.queue.entries marks.new opened.new) }
    ensures only { OnOk result (SeeksOnly (is_concerned world.old.world student course) queue.now.queue.entries
        marks.old opened.old.courses.items marks.new opened.new.courses.items) }
    ensures since { Since world.old.world undo.old.backs world.new.world undo.new.backs }
    ensures undoable { Undoable world.new undo.new.backs }
{
    if world.holds(student, course) {
        world.recall_kept();
        fall_back(opened, marks)?;
        mark_leaving(world, queue, student, course, marks)?;
        make(world, Change::Leave(student, course), undo)
    } else {
        Ok(())
    }
}

/// Enrols the candidate's student by the choice.
fn enrol(
    world: &mut World,
    queue: &Queue,
    candidate: &Candidate,
    marks: &mut Marks,
    opened: &mut Opened,
    undo: &mut Undo,
) -> Result<(), Memory>
    requires fits { Fits world.old.world (Change.Enrol (enrolment_of candidate.now)) }
    requires fit { IsTrue (list_all (entry_fits world.old.world) queue.now.queue.entries) }
    requires others { OthersBut world.old.world queue.now.queue.entries marks.old opened.old }
    requires undoable { Undoable world.old undo.old.backs }
    ensures ok { OnOk result (world.new.world ≡ changed world.old.world (Change.Enrol (enrolment_of candidate.now))) }
    ensures others { OnOk result (OthersBut world.new.world queue.now.queue.entries marks.new opened.new) }
    ensures only { OnOk result (SeeksOnly (is_concerned world.old.world candidate.now.student candidate.now.choice.course) queue.now.queue.entries
        marks.old opened.old.courses.items marks.new opened.new.courses.items) }
    ensures since { Since world.old.world undo.old.backs world.new.world undo.new.backs }
    ensures undoable { Undoable world.new undo.new.backs }
{
    let enrolment = Enrolment {
        student: candidate.student,
        choice: candidate.choice,
    };
    world.recall_kept();
    fall_back_where_freed(world, &enrolment.choice, opened, marks)?;
    mark_enrolment(world, queue, &enrolment, marks)?;
    make(world, Change::Enrol(enrolment), undo)
}

/// Where an enrolment by the choice frees a place by its reservation, all are tried who want what opened.
fn fall_back_where_freed(
    world: &World,
    choice: &Choice,
    opened: &mut Opened,
    marks: &mut Marks,
) -> Result<(), Memory>
    ensures others { OnOk result ((entries : List Entry) → OthersBut world.now.world entries marks.old opened.old
        → OthersBut world.now.world entries marks.new opened.new) }
    ensures none { OnOk result (IsTrue (frees_some world.now.world choice.now) → opened.new.courses.items ≡ []) }
    ensures only { OnOk result ((entries : List Entry) → SeeksOnly (λ e. false) entries marks.old opened.old.courses.items marks.new opened.new.courses.items) }
{
    if frees(world, choice) {
        fall_back(opened, marks)
    } else {
        Ok(())
    }
}

/// Makes a change that fits.
pub(crate) fn make(world: &mut World, change: Change, undo: &mut Undo) -> Result<(), Memory>
    requires fits { Fits world.old.world change }
    requires undoable { Undoable world.old undo.old.backs }
    ensures ok { OnOk result (world.new.world ≡ changed world.old.world change) }
    ensures since { Since world.old.world undo.old.backs world.new.world undo.new.backs }
    ensures undoable { Undoable world.new undo.new.backs }
{
    world.apply(change, undo)
}
