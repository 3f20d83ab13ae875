// Which entries a change marks: those that it may give a move.

ghost use Rattle.std.specs.Prelude.{◌≡◌, ◌==◌, ◌&&◌, [], ◌∷◌, List, cond, None as Nobody, Some as Told, OnErr, OnOk, option_copied};
ghost use Rattle.std.specs.List.{list_all, list_any};
ghost use Rattle.std.specs.Option.{is_some};
ghost use Rattle.sect_catalog.specs.Catalogue.{has_course as has_course_in, places as places_of};
ghost use Rattle.sect_model.specs.declared.held.Waiting.{Waiting as Entry};
ghost use Rattle.sect_model.specs.Choice.{lists_section as is_among};
ghost use Rattle.sect_model.specs.World.{offering_of as row_of};
ghost use Rattle.sect_model.specs.Freer.{Among, frees_some, lists_only as is_listing_only, may_open};
ghost use Rattle.sect_model.specs.declared.change.Change.TheVariants.{Enrol, Leave};
ghost use Rattle.sect_wait.specs.Marked.{MarksMore, NotesMore, concerns as is_concerned, is_noted, is_noted_in, may_need, wants_some};
ghost use Rattle.sect_wait.specs.Indexed.{MarksTold, has_ticket};
ghost use Rattle.sect_wait.specs.Touched.{MarksOnly, is_concerned as is_concerned_in};

use crate::marks::Marks;
use crate::queue::Queue;
use sect_base::{Choice, ConfigId, CourseId, Limit, Memory, SectionId, StudentId};
use sect_catalog::{CourseRow, OfferingRow};
use sect_model::{Enrolment, Waiting};
use sect_reserve::{Place, Reservation, active};
use sect_space::World;

/// Marks the entries that the enrolment may give a move: those of its student, and where it frees a place by its
/// reservation, those that want a course of its offering; and those that are noted as spent and want one of its offering.
/// Where memory runs out, some of them are marked.
pub fn mark_enrolment(
    world: &World,
    queue: &Queue,
    enrolment: &Enrolment,
    marks: &mut Marks,
) -> Result<(), Memory>
    ensures more { OnOk result (MarksMore (λ e. may_need world.now.world (is_noted marks.old.spent e) e (Enrol enrolment.now))
        queue.now.queue.entries marks.old marks.new) }
    ensures only { OnOk result (MarksOnly (is_concerned_in world.now.world enrolment.now.student enrolment.now.choice.course)
        queue.now.queue.entries marks.old marks.new) }
{
    world.recall_kept();
    let row = freed(world, &enrolment.choice);
    mark(queue, Some(enrolment.student), row, marks)?;
    mark_noted_by(world, queue, enrolment.choice.course, marks)
}

/// Marks the entries that the student's leaving the course may give a move: those of the student, and those that want a
/// course of its offering. Where memory runs out, some of them are marked.
pub fn mark_leaving(
    world: &World,
    queue: &Queue,
    student: StudentId,
    course: CourseId,
    marks: &mut Marks,
) -> Result<(), Memory>
    ensures more { OnOk result (MarksMore (λ e. may_open world.now.world e (Leave student course)) queue.now.queue.entries marks.old marks.new) }
    ensures only { OnOk result (MarksOnly (is_concerned_in world.now.world student course) queue.now.queue.entries marks.old marks.new) }
{
    world.recall_kept();
    let row = offering_of(world, course);
    mark(queue, Some(student), row, marks)
}

/// Marks the entries of the student, which are found by the queue's index, and those that want a course of the offering.
/// Where memory runs out, some of them are marked.
pub fn mark(
    queue: &Queue,
    student: Option<StudentId>,
    row: Option<&OfferingRow>,
    marks: &mut Marks,
) -> Result<(), Memory>
    ensures more { OnOk result (MarksMore (is_concerned student (option_copied row.entry)) queue.now.queue.entries marks.old marks.new) }
    ensures only { OnOk result (MarksOnly (is_concerned student (option_copied row.entry)) queue.now.queue.entries marks.old marks.new) }
{
    mark_student(queue, student, marks)?;
    mark_row(row, marks)
}

/// Marks the entries of the student.
pub(crate) fn mark_student(
    queue: &Queue,
    student: Option<StudentId>,
    marks: &mut Marks,
) -> Result<(), Memory>
    ensures more { OnOk result (MarksMore (is_concerned student Nobody) queue.now.queue.entries marks.old marks.new) }
    ensures only { OnOk result (MarksOnly (is_concerned student Nobody) queue.now.queue.entries marks.old marks.new) }
{
    match student {
        Some(student) => mark_own(queue, student, marks),
        None => Ok(()),
    }
}

/// Marks the entries of the student: the index tells where to look, or else all are looked at.
fn mark_own(queue: &Queue, student: StudentId, marks: &mut Marks) -> Result<(), Memory>
    ensures more { OnOk result (MarksMore (λ e. student.0 == e.student.0) queue.now.queue.entries marks.old marks.new) }
    ensures only { OnOk result (MarksOnly (λ e. student.0 == e.student.0) queue.now.queue.entries marks.old marks.new) }
{
    match queue.of_student(student) {
        Some(tickets) => mark_own_of(queue, student, tickets, marks),
        None => mark_own_among(queue, student, queue.entries(), marks),
    }
}

/// Marks those of the tickets whose entries are the student's.
fn mark_own_of(
    queue: &Queue,
    student: StudentId,
    tickets: &[u64],
    marks: &mut Marks,
) -> Result<(), Memory>
    ensures more { OnOk result (MarksMore (λ e. list_any (λ t. t == e.ticket && student.0 == e.student.0) tickets.now)
        queue.now.queue.entries marks.old marks.new) }
    ensures only { OnOk result (MarksOnly (λ e. student.0 == e.student.0) queue.now.queue.entries marks.old marks.new) }
{
    for ticket in tickets {
        mark_if_own(queue, student, *ticket, marks)?;
    }
    Ok(())
}

/// Marks those of the entries that are the student's.
fn mark_own_among(
    queue: &Queue,
    student: StudentId,
    entries: &[Waiting],
    marks: &mut Marks,
) -> Result<(), Memory>
    ensures more { OnOk result (MarksMore (λ e. list_any (λ d. d.ticket == e.ticket && student.0 == e.student.0) entries.now)
        queue.now.queue.entries marks.old marks.new) }
    ensures only { OnOk result (MarksOnly (λ e. student.0 == e.student.0) queue.now.queue.entries marks.old marks.new) }
{
    for entry in entries {
        mark_if_own(queue, student, entry.ticket, marks)?;
    }
    Ok(())
}

/// Marks the ticket where its entry is the student's.
fn mark_if_own(
    queue: &Queue,
    student: StudentId,
    ticket: u64,
    marks: &mut Marks,
) -> Result<(), Memory>
    ensures more { OnOk result (MarksMore (λ e. ticket == e.ticket && student.0 == e.student.0) queue.now.queue.entries marks.old marks.new) }
    ensures only { OnOk result (MarksOnly (λ e. student.0 == e.student.0) queue.now.queue.entries marks.old marks.new) }
{
    if is_own(queue, student, ticket) {
        mark_ticket(ticket, marks)
    } else {
        Ok(())
    }
}

/// Whether the entry of the ticket is the student's.
fn is_own(queue: &Queue, student: StudentId, ticket: u64) -> bool
    ensures { (e : Entry) → Among queue.now.queue.entries e → e.ticket ≡ ticket → result ≡ (student.0 == e.student.0) }
{
    queue.recall_kept();
    match queue.entry(ticket) {
        Some(entry) => is_of(entry, student),
        None => false,
    }
}

/// Whether the entry is the student's.
fn is_of(entry: &Waiting, student: StudentId) -> bool
    ensures { result ≡ (student.0 == entry.now.student.0) }
{
    student == entry.student
}

/// Marks the entries that want a course of the offering.
fn mark_row(row: Option<&OfferingRow>, marks: &mut Marks) -> Result<(), Memory>
    ensures more { OnOk result ((entries : List Entry) → MarksMore (is_concerned Nobody (option_copied row.entry)) entries marks.old marks.new) }
    ensures only { OnOk result ((entries : List Entry) → MarksOnly (is_concerned Nobody (option_copied row.entry)) entries marks.old marks.new) }
{
    match row {
        Some(row) => mark_courses(row.courses.as_slice(), marks),
        None => Ok(()),
    }
}

/// Marks the entries that want one of the courses, by the courses.
fn mark_courses(courses: &[CourseRow], marks: &mut Marks) -> Result<(), Memory>
    ensures more { OnOk result ((entries : List Entry) → MarksMore (wants_some courses.now) entries marks.old marks.new) }
    ensures only { OnOk result ((entries : List Entry) → MarksOnly (wants_some courses.now) entries marks.old marks.new) }
{
    for course in courses {
        marks.mark_course(course.id)?;
    }
    Ok(())
}

/// Marks the entries that are noted as spent and want a course of the offering of this course, which is looked up where some are
/// noted. Where memory runs out, some of them are marked.
fn mark_noted_by(
    world: &World,
    queue: &Queue,
    course: CourseId,
    marks: &mut Marks,
) -> Result<(), Memory>
    ensures more { OnOk result (MarksMore (is_noted_in marks.old.spent (row_of world.now.world course)) queue.now.queue.entries marks.old marks.new) }
    ensures only { OnOk result (MarksOnly (is_concerned Nobody (row_of world.now.world course)) queue.now.queue.entries marks.old marks.new) }
{
    if marks.spent().is_empty() {
        return Ok(());
    }
    mark_noted(queue, offering_of(world, course), marks)
}

/// Marks the entries that are noted as spent and want a course of the offering. Where memory runs out, some of them are
/// marked.
pub fn mark_noted(queue: &Queue, row: Option<&OfferingRow>, marks: &mut Marks) -> Result<(), Memory>
    ensures more { OnOk result (MarksMore (is_noted_in marks.old.spent (option_copied row.entry)) queue.now.queue.entries marks.old marks.new) }
    ensures only { OnOk result (MarksOnly (is_concerned Nobody (option_copied row.entry)) queue.now.queue.entries marks.old marks.new) }
{
    match row {
        Some(row) => mark_noted_in(queue, row, marks),
        None => Ok(()),
    }
}

/// Marks the entries that are noted as spent and want a course of the offering.
fn mark_noted_in(queue: &Queue, row: &OfferingRow, marks: &mut Marks) -> Result<(), Memory>
    ensures more { OnOk result (MarksMore (is_noted_in marks.old.spent (Told row.now)) queue.now.queue.entries marks.old marks.new) }
    ensures only { OnOk result (MarksOnly (is_concerned Nobody (Told row.now)) queue.now.queue.entries marks.old marks.new) }
{
    for place in 0..marks.spent().len() {
        let ticket = marks.spent()[place];
        if is_wanting(queue, ticket, row) {
            mark_ticket(ticket, marks)?;
        }
    }
    Ok(())
}

/// Whether the entry of the ticket wants a course of the offering.
fn is_wanting(queue: &Queue, ticket: u64, row: &OfferingRow) -> bool
    ensures { (e : Entry) → Among queue.now.queue.entries e → e.ticket ≡ ticket → result ≡ list_any (has_course_in row.now) e.want.courses }
{
    queue.recall_kept();
    match queue.entry(ticket) {
        Some(entry) => wants(entry, row),
        None => false,
    }
}

/// Whether the entry wants a course of the offering.
fn wants(entry: &Waiting, row: &OfferingRow) -> bool
    ensures { result ≡ list_any (has_course_in row.now) entry.now.want.courses }
{
    let courses = entry.want.courses.as_slice();
    courses.iter().any(|course| has_course(row, *course))
}

/// Whether the offering has the course.
fn has_course(row: &OfferingRow, course: CourseId) -> bool
    ensures { result ≡ has_course_in row.now course }
{
    row.courses.as_slice().iter().any(|own| own.id == course)
}

/// Notes the tickets as spent where they aren't yet. Where memory runs out, some of them are noted.
pub(crate) fn note_each(tickets: &[u64], marks: &mut Marks) -> Result<(), Memory>
    ensures { OnOk result (NotesMore tickets.now marks.old marks.new) }
{
    for ticket in tickets {
        if !marks.has_spent(*ticket) {
            marks.note(*ticket)?;
        }
    }
    Ok(())
}

/// Marks the tickets. Where memory runs out, some of them are marked.
pub(crate) fn mark_each(tickets: &[u64], marks: &mut Marks) -> Result<(), Memory>
    ensures told { OnOk result (MarksTold (Told tickets.now) marks.old marks.new) }
    ensures only { OnOk result ((entries : List Entry) → MarksOnly (λ e. has_ticket e.ticket tickets.now) entries marks.old marks.new) }
{
    for ticket in tickets {
        mark_ticket(*ticket, marks)?;
    }
    Ok(())
}

/// Marks the ticket where it isn't marked yet. Where memory runs out, the marks are as before.
pub fn mark_ticket(ticket: u64, marks: &mut Marks) -> Result<(), Memory>
    ensures told { OnOk result (MarksTold (Told (ticket ∷ [])) marks.old marks.new) }
    ensures only { OnOk result ((entries : List Entry) → MarksOnly (λ e. ticket == e.ticket) entries marks.old marks.new) }
    ensures err { OnErr result (marks.new ≡ marks.old) }
{
    if !marks.has_ticket(ticket) {
        marks.mark(ticket)?;
    }
    Ok(())
}

/// The offering of a course.
pub(crate) fn offering_of(world: &World, course: CourseId) -> Option<&OfferingRow>
    ensures { option_copied result ≡ row_of world.now.world course }
{
    let (row, _) = world.catalogue().course(course)?;
    Some(row)
}

/// The offering in which a choice frees a place by its reservation.
fn freed<'a>(world: &'a World, choice: &Choice) -> Option<&'a OfferingRow>
    ensures { option_copied result ≡ cond (frees_some world.now.world choice.now) (row_of world.now.world choice.now.course) Nobody }
{
    if frees(world, choice) {
        offering_of(world, choice.course)
    } else {
        None
    }
}

/// Whether the choice is by an active reservation with a limit that lists something else.
pub(crate) fn frees(world: &World, choice: &Choice) -> bool
    ensures { result ≡ frees_some world.now.world choice.now }
{
    let Some(id) = choice.reservation else {
        return false;
    };
    match world.reservation(id) {
        Some(row) => {
            active(row, world.day()) && is_limited(row.limit) && !lists_only(choice, row)
        }
        None => false,
    }
}

/// Whether the limit is a number of places.
fn is_limited(limit: Limit) -> bool
    ensures { result ≡ is_some (places_of limit) }
{
    match limit {
        Limit::Places(_) => true,
        Limit::Unlimited => false,
    }
}

/// Whether the reservation lists no configuration and no section but those of the choice.
fn lists_only(choice: &Choice, row: &Reservation) -> bool
    ensures { result ≡ is_listing_only choice.now row.now }
{
    are_all(row.includes.configs.as_slice(), choice.config)
        && are_among(row.includes.sections.as_slice(), choice.sections.as_slice())
}

/// Whether each of the configurations is this one.
fn are_all(configs: &[ConfigId], id: ConfigId) -> bool
    ensures { result ≡ list_all (λ c. c.0 == id.0) configs.now }
{
    configs.iter().all(|config| *config == id)
}

/// Whether the section of each place is among the sections.
fn are_among(places: &[Place], sections: &[SectionId]) -> bool
    ensures { result ≡ list_all (λ p. is_among sections.now p.section) places.now }
{
    places
        .iter()
        .all(|place| has_section(sections, place.section))
}

/// Whether the section is among these.
fn has_section(sections: &[SectionId], id: SectionId) -> bool
    ensures { result ≡ is_among sections.now id }
{
    sections.iter().any(|section| *section == id)
}
