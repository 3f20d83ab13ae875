// A student leaves a course: what that opens is noted, or marked.

ghost use Rattle.std.specs.Prelude.{◌≡◌, ◌==◌, [], find, option_copied, IfOk, IsTrue, OnOk};
ghost use Rattle.std.specs.List.{list_all};
ghost use Rattle.sect_model.specs.World.{holds as is_held, leave};
ghost use Rattle.sect_model.specs.Kept.{entry_fits};
ghost use Rattle.sect_space.specs.Undo.{Since, Undoable};
ghost use Rattle.sect_wait.specs.Marked.{OthersNeedNoSearch};
ghost use Rattle.sect_wait.specs.Opened.{NotesAll, OthersBut};
ghost use Rattle.sect_wait.specs.Touched.{SeeksOnly, is_concerned};

use crate::marking::{mark_leaving, mark_noted, mark_student, offering_of};
use crate::marks::Marks;
use crate::noting::note;
use crate::opened::Opened;
use crate::place::make;
use crate::queue::Queue;
use sect_base::{CourseId, Memory, StudentId};
use sect_catalog::{CourseRow, OfferingRow};
use sect_model::{Change, Enrolment};
use sect_space::{Undo, World};
use std::alloc::Global;

/// The student leaves the course. Its own entries are marked, and those that are noted as spent and want a course of its
/// offering; what opened for the others is told: settling tries those as long as that is open. Where memory runs out, world
/// and what is recorded are as before, and some entries are marked.
pub fn leave_course(
    alloc: Global,
    world: &mut World,
    queue: &Queue,
    student: StudentId,
    course: CourseId,
    marks: &mut Marks,
    undo: &mut Undo,
) -> Result<Opened, Memory>
    requires held { IsTrue (is_held world.old.world student course) }
    requires fit { IsTrue (list_all (entry_fits world.old.world) queue.now.queue.entries) }
    requires others { OthersNeedNoSearch world.old.world queue.now.queue.entries marks.old }
    requires undoable { Undoable world.old undo.old.backs }
    ensures ok { OnOk result (world.new.world ≡ leave world.old.world student course) }
    ensures others { IfOk result (λ opened. OthersBut world.new.world queue.now.queue.entries marks.new opened) }
    ensures only { IfOk result (λ opened. SeeksOnly (is_concerned world.old.world student course) queue.now.queue.entries
        marks.old [] marks.new opened.courses.items) }
    ensures since { Since world.old.world undo.old.backs world.new.world undo.new.backs }
    ensures undoable { Undoable world.new undo.new.backs }
{
    world.recall_kept();
    if is_wanted(queue, offering_of(world, course)) {
        leave_noted(alloc, world, queue, student, course, marks, undo)
    } else {
        mark_leaving(world, queue, student, course, marks)?;
        make(world, Change::Leave(student, course), undo)?;
        Ok(Opened::none(alloc))
    }
}

/// Whether somebody waits for a course of the offering.
fn is_wanted(queue: &Queue, row: Option<&OfferingRow>) -> bool {
    match row {
        Some(row) => are_wanted(queue, row.courses.as_slice()),
        None => false,
    }
}

/// Whether somebody waits for one of the courses.
fn are_wanted(queue: &Queue, courses: &[CourseRow]) -> bool {
    courses.iter().any(|course| match queue.of_course(course.id) {
        Some(tickets) => !tickets.is_empty(),
        None => true,
    })
}

/// The student leaves the course, and what opened is noted.
fn leave_noted(
    alloc: Global,
    world: &mut World,
    queue: &Queue,
    student: StudentId,
    course: CourseId,
    marks: &mut Marks,
    undo: &mut Undo,
) -> Result<Opened, Memory>
    requires held { IsTrue (is_held world.old.world student course) }
    requires fit { IsTrue (list_all (entry_fits world.old.world) queue.now.queue.entries) }
    requires others { OthersNeedNoSearch world.old.world queue.now.queue.entries marks.old }
    requires undoable { Undoable world.old undo.old.backs }
    ensures ok { OnOk result (world.new.world ≡ leave world.old.world student course) }
    ensures others { IfOk result (λ opened. OthersBut world.new.world queue.now.queue.entries marks.new opened) }
    ensures only { IfOk result (λ opened. SeeksOnly (is_concerned world.old.world student course) queue.now.queue.entries
        marks.old [] marks.new opened.courses.items) }
    ensures since { Since world.old.world undo.old.backs world.new.world undo.new.backs }
    ensures undoable { Undoable world.new undo.new.backs }
{
    world.recall_kept();
    let opened = noted(alloc, world, student, course)?;
    mark_student(queue, Some(student), marks)?;
    mark_noted(queue, offering_of(world, course), marks)?;
    make(world, Change::Leave(student, course), undo)?;
    Ok(opened)
}

/// What the student's leaving the course may open.
fn noted(
    alloc: Global,
    world: &World,
    student: StudentId,
    course: CourseId,
) -> Result<Opened, Memory>
    requires { IsTrue (is_held world.now.world student course) }
    ensures { IfOk result (λ opened. NotesAll world.now.world student course opened) }
{
    world.recall_kept();
    match held(world.enrolments(student), course) {
        Some(enrolment) => note(alloc, world, &enrolment.choice),
        None => Ok(Opened::none(alloc)),
    }
}

/// The first of the enrolments that is in the course.
fn held(enrolments: &[Enrolment], course: CourseId) -> Option<&Enrolment>
    ensures { option_copied result ≡ find (λ x. x.choice.course.0 == course.0) enrolments.now }
{
    enrolments
        .iter()
        .find(|enrolment| enrolment.choice.course == course)
}
