// Which entries a command marks: those that it may give a move, and those whose spent searches it touches.

ghost use Rattle.std.specs.Prelude.{◌≡◌, List, OnOk, option_copied};
ghost use Rattle.sect_model.specs.declared.held.Waiting.{Waiting as Entry};
ghost use Rattle.sect_wait.specs.Marked.{MarksMore};
ghost use Rattle.sect_machine.specs.Opening.{
  enrolled_opens,
  is_joined as is_new,
  last_offering as offering_last_changed,
  opened,
  opens,
  reserved_in as reserved_offering,
  restricted_in as restricted_offering,
  sectioned_in as sectioned_offering,
};

use crate::opened::{mark_batched, mark_choice, mark_swapped};
use sect_base::{Memory, ReservationId, RestrictionId, SectionId, StudentId};
use sect_catalog::OfferingRow;
use sect_command::{Command, Reply};
use sect_space::{Undo, World};
use sect_wait::{Marks, Queue, mark, mark_leaving, mark_noted, mark_ticket};

/// Marks the entries that a command may give a move whose change is known before it acts. Where memory runs out, some of
/// them are marked.
pub fn mark_before(
    world: &World,
    queue: &Queue,
    command: &Command,
    marks: &mut Marks,
) -> Result<(), Memory>
    ensures { OnOk result (MarksMore (opens world.now.world marks.old.spent command.now) queue.now.queue.entries marks.old marks.new) }
{
    match command {
        Command::Student(row) => mark(queue, Some(row.id), None, marks),
        Command::Requests { student, asks: _ } => mark(queue, Some(*student), None, marks),
        Command::Reserve(row) => {
            let row = world.catalogue().offering(row.offering);
            mark(queue, None, row, marks)
        }
        Command::Unreserve(id) => mark(queue, None, reserved_in(world, *id), marks),
        Command::Expire {
            reservation,
            expiry: _,
        } => mark(queue, None, reserved_in(world, *reservation), marks),
        Command::Restrict(row) => {
            let row = world.catalogue().offering(row.offering);
            mark(queue, None, row, marks)
        }
        Command::Unrestrict(id) => mark(queue, None, restricted_in(world, *id), marks),
        Command::Cancel(id) => mark_noted(queue, sectioned_in(world, *id), marks),
        Command::Drop { student, course } => {
            mark_leaving(world, queue, *student, *course, marks)
        }
        _ => Ok(()),
    }
}

/// Marks the entries that a command may have given a move, by its reply and what was recorded of it, in the world after it.
/// Where memory runs out, some of them are marked.
pub fn mark_after(
    world: &World,
    queue: &Queue,
    command: &Command,
    reply: &Reply,
    undo: &Undo,
    marks: &mut Marks,
) -> Result<(), Memory>
    ensures { OnOk result (MarksMore (opened world.now.world marks.old.spent undo.now.backs command.now reply.now)
        queue.now.queue.entries marks.old marks.new) }
{
    match command {
        Command::SetLimit { cap: _, limit: _ } => {
            mark(queue, None, last_offering(world, undo), marks)
        }
        Command::Enrol {
            student,
            want: _,
            budget: _,
        } => mark_enrolled(world, queue, *student, reply, marks),
        Command::Swap {
            student,
            give,
            take: _,
            budget: _,
        } => mark_swapped(world, queue, *student, give.as_slice(), reply, marks),
        Command::Wait {
            student: _,
            want: _,
            give: _,
            class: _,
        } => mark_joined(reply, marks),
        Command::Batch { students: _ } => mark_batched(world, queue, reply, marks),
        _ => Ok(()),
    }
}

/// Marks what an enrolment may have opened, where it was made.
fn mark_enrolled(
    world: &World,
    queue: &Queue,
    student: StudentId,
    reply: &Reply,
    marks: &mut Marks,
) -> Result<(), Memory>
    ensures { OnOk result (MarksMore (enrolled_opens world.now.world marks.old.spent student reply.now) queue.now.queue.entries marks.old marks.new) }
{
    if let Reply::Enrolled(choice) = reply {
        return mark_choice(world, queue, student, choice, marks);
    }
    Ok(())
}

/// Marks the entry that joined.
fn mark_joined(reply: &Reply, marks: &mut Marks) -> Result<(), Memory>
    ensures { OnOk result ((entries : List Entry) → MarksMore (is_new reply.now) entries marks.old marks.new) }
{
    match reply {
        Reply::Waiting(ticket) => mark_ticket(*ticket, marks),
        _ => Ok(()),
    }
}

/// The offering of a reservation.
fn reserved_in(world: &World, id: ReservationId) -> Option<&OfferingRow>
    ensures { option_copied result ≡ reserved_offering world.now.world id }
{
    let row = world.reservation(id)?;
    world.catalogue().offering(row.offering)
}

/// The offering of a restriction.
fn restricted_in(world: &World, id: RestrictionId) -> Option<&OfferingRow>
    ensures { option_copied result ≡ restricted_offering world.now.world id }
{
    let row = world.restriction(id)?;
    world.catalogue().offering(row.offering)
}

/// The offering in which a section stands.
fn sectioned_in(world: &World, id: SectionId) -> Option<&OfferingRow>
    ensures { option_copied result ≡ sectioned_offering world.now.world id }
{
    world.catalogue().offering_of_section(id)
}

/// The offering that the change recorded last concerns.
fn last_offering<'a>(world: &'a World, undo: &Undo) -> Option<&'a OfferingRow>
    ensures { option_copied result ≡ offering_last_changed world.now.world undo.now.backs }
{
    let len = undo.len();
    if len == 0 {
        return None;
    }
    let id = undo.mark(len - 1).offering?;
    world.catalogue().offering(id)
}
