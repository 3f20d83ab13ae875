// Which entries a made swap and a made batch mark: those that one of their changes may give a move.

ghost use Rattle.std.specs.Prelude.{◌||◌, OnOk};
ghost use Rattle.sect_model.specs.declared.change.Change.TheVariants.{Enrol};
ghost use Rattle.sect_wait.specs.Marked.{MarksMore, is_noted, may_need};
ghost use Rattle.sect_machine.specs.Opening.{batch_opens, leaving_opens, lines_open, result_opens, swap_opens, taking_opens};

use sect_base::{Choice, CourseId, Memory, StudentId};
use sect_command::{Line, LineResult, Reply};
use sect_model::Enrolment;
use sect_space::World;
use sect_wait::{Marks, Queue, mark_enrolment, mark_leaving, mark_ticket};

/// Marks what the leavings and the enrolments of a swap may have opened, where it was made. Where memory runs out, some of
/// it is marked.
pub fn mark_swapped(
    world: &World,
    queue: &Queue,
    student: StudentId,
    give: &[CourseId],
    reply: &Reply,
    marks: &mut Marks,
) -> Result<(), Memory>
    ensures { OnOk result (MarksMore (swap_opens world.now.world marks.old.spent student give.now reply.now) queue.now.queue.entries marks.old marks.new) }
{
    if let Reply::Swapped(choices) = reply {
        return mark_move(world, queue, student, give, choices.as_slice(), marks);
    }
    Ok(())
}

/// Marks what the student's leaving the courses may have opened, and what its enrolments by the choices may.
fn mark_move(
    world: &World,
    queue: &Queue,
    student: StudentId,
    give: &[CourseId],
    choices: &[Choice],
    marks: &mut Marks,
) -> Result<(), Memory>
    ensures { OnOk result (MarksMore (λ e. leaving_opens world.now.world student give.now e || taking_opens world.now.world
        marks.old.spent student choices.now e) queue.now.queue.entries marks.old marks.new) }
{
    mark_given(world, queue, student, give, marks)?;
    mark_taken(world, queue, student, choices, marks)
}

/// Marks what the student's leaving the courses may have opened.
fn mark_given(
    world: &World,
    queue: &Queue,
    student: StudentId,
    courses: &[CourseId],
    marks: &mut Marks,
) -> Result<(), Memory>
    ensures { OnOk result (MarksMore (leaving_opens world.now.world student courses.now) queue.now.queue.entries marks.old marks.new) }
{
    for course in courses {
        mark_leaving(world, queue, student, *course, marks)?;
    }
    Ok(())
}

/// Marks what the student's enrolments by the choices may have opened.
fn mark_taken(
    world: &World,
    queue: &Queue,
    student: StudentId,
    choices: &[Choice],
    marks: &mut Marks,
) -> Result<(), Memory>
    ensures { OnOk result (MarksMore (taking_opens world.now.world marks.old.spent student choices.now) queue.now.queue.entries marks.old marks.new) }
{
    for choice in choices {
        mark_choice(world, queue, student, choice, marks)?;
    }
    Ok(())
}

/// Marks what the student's enrolment by the choice may have opened. Where memory runs out, some of it is marked.
pub fn mark_choice(
    world: &World,
    queue: &Queue,
    student: StudentId,
    choice: &Choice,
    marks: &mut Marks,
) -> Result<(), Memory>
    ensures { OnOk result (MarksMore (λ e. may_need world.now.world (is_noted marks.old.spent e) e
        (Enrol (record { student = student; choice = choice.now }))) queue.now.queue.entries marks.old marks.new) }
{
    let enrolment = Enrolment {
        student,
        choice: *choice,
    };
    mark_enrolment(world, queue, &enrolment, marks)
}

/// Marks what the lines of a batch may have opened. Where memory runs out, some of it is marked.
pub fn mark_batched(
    world: &World,
    queue: &Queue,
    reply: &Reply,
    marks: &mut Marks,
) -> Result<(), Memory>
    ensures { OnOk result (MarksMore (batch_opens world.now.world marks.old.spent reply.now) queue.now.queue.entries marks.old marks.new) }
{
    if let Reply::Batched(lines) = reply {
        return mark_lines(world, queue, lines.as_slice(), marks);
    }
    Ok(())
}

/// Marks what the lines may have opened.
fn mark_lines(world: &World, queue: &Queue, lines: &[Line], marks: &mut Marks) -> Result<(), Memory>
    ensures { OnOk result (MarksMore (lines_open world.now.world marks.old.spent lines.now) queue.now.queue.entries marks.old marks.new) }
{
    for line in lines {
        mark_line(world, queue, line, marks)?;
    }
    Ok(())
}

/// Marks what the enrolment of a line that is met may have opened, and the entry of one that waits.
fn mark_line(world: &World, queue: &Queue, line: &Line, marks: &mut Marks) -> Result<(), Memory>
    ensures { OnOk result (MarksMore (result_opens world.now.world marks.old.spent line.now.student line.now.result)
        queue.now.queue.entries marks.old marks.new) }
{
    match &line.result {
        LineResult::Met(choice) => mark_choice(world, queue, line.student, choice, marks),
        LineResult::Waiting(ticket) => mark_ticket(*ticket, marks),
        _ => Ok(()),
    }
}
