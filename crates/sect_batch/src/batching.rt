// The batch: each student's requests in turn, and each choice is enrolled at once.

ghost use Rattle.std.specs.Prelude.{◌≡◌, ◌<◌, ◌≤◌, ◌+◌, [], ◌∷◌, List, length, map, IfOk, IfSome, OnOk, OnErr, IsTrue};
ghost use Rattle.std.specs.List.{list_all, enumerate_from};
ghost use Rattle.std.specs.Option.{is_some};
ghost use Rattle.sect_people.specs.Student.{find_student};
ghost use Rattle.sect_model.specs.Batch.{Batched, batch_of, batch_students, batch_asks, asks_of as requests_of};
ghost use Rattle.sect_model.specs.World.{enrol as world_with, held_by};
ghost use Rattle.sect_model.specs.Fits.{Fits};
ghost use Rattle.sect_space.specs.Undo.{Since, Undoable};
ghost use Rattle.sect_batch.specs.Lines.{Tells, ToldOn, IsPut, ChoiceFits, MetFits, answer_to_ask, ask_fits, taking};

use crate::answering::answer_to;
use crate::lines::{Answer, Lines, choice_of};
use sect_base::{Choice, Items, Memory, Steps, StudentId};
use sect_command::Line;
use sect_model::{Change, Enrolment};
use sect_people::Ask;
use sect_space::{Undo, World};
use std::alloc::Global;
use std::marker::Brand;
use std::sync::ledger::{Blank, Ledger};

/// Where the lines of a student's requests stop: how far they go, and the choice of the last one, where it has one.
#[derive(Drop)]
struct Stop {
    place: usize,
    choice: Option<Choice>,
}

/// A line for each course request of the students, in their order and by position; free times make none. What is met is
/// enrolled at once, so that later requests see it. The students are known, and what is recorded in `undo` can be taken back.
/// Where memory runs out, the world and what is recorded are as before.
pub fn batch(
    alloc: Global,
    world: &mut World,
    students: &[StudentId],
    undo: &mut Undo,
) -> Result<Items<Line>, Memory>
    requires known { IsTrue (list_all (λ s. is_some (find_student world.old.world.students s)) students.now) }
    requires undoable { Undoable world.old undo.old.backs }
    ensures world { OnOk result (world.new.world ≡ (batch_of world.old.world students.now).world) }
    ensures lines { IfOk result (λ lines. lines ≡ map (λ a. a.line) (batch_of world.old.world students.now).answered) }
    ensures err { OnErr result (world.new.world ≡ world.old.world) }
    ensures not_recorded { OnErr result (undo.new.backs ≡ undo.old.backs) }
    ensures since { Since world.old.world undo.old.backs world.new.world undo.new.backs }
    ensures undoable { Undoable world.new undo.new.backs }
{
    counted::<Brand>(alloc, world, students, undo, Blank::new(1))
}

/// The batch, whose searches are counted in a ledger of its own. It makes room first to record an enrolment of each student.
fn counted<L: Ledger>(
    alloc: Global,
    world: &mut World,
    students: &[StudentId],
    undo: &mut Undo,
    blank: Blank,
) -> Result<Items<Line>, Memory>
    requires name { blank.name ≡ L.name }
    requires parts { blank.parts ≡ L.parts }
    requires some { 0 < blank.parts }
    requires known { IsTrue (list_all (λ s. is_some (find_student world.old.world.students s)) students.now) }
    requires undoable { Undoable world.old undo.old.backs }
    ensures world { OnOk result (world.new.world ≡ (batch_of world.old.world students.now).world) }
    ensures lines { IfOk result (λ lines. lines ≡ map (λ a. a.line) (batch_of world.old.world students.now).answered) }
    ensures err { OnErr result (world.new.world ≡ world.old.world) }
    ensures not_recorded { OnErr result (undo.new.backs ≡ undo.old.backs) }
    ensures since { Since world.old.world undo.old.backs world.new.world undo.new.backs }
    ensures undoable { Undoable world.new undo.new.backs }
{
    undo.reserve(students.len())?;
    let mut steps: Steps<L> = Steps::new(blank);
    all_or_none(alloc, world, students, undo, &mut steps)
}

/// The lines of all students. Where memory runs out, nobody is enrolled.
fn all_or_none<L: Ledger>(
    alloc: Global,
    world: &mut World,
    students: &[StudentId],
    undo: &mut Undo,
    steps: &mut Steps<L>,
) -> Result<Items<Line>, Memory>
    requires known { IsTrue (list_all (λ s. is_some (find_student world.old.world.students s)) students.now) }
    requires undoable { Undoable world.old undo.old.backs }
    ensures world { OnOk result (world.new.world ≡ (batch_of world.old.world students.now).world) }
    ensures lines { IfOk result (λ lines. lines ≡ map (λ a. a.line) (batch_of world.old.world students.now).answered) }
    ensures err { OnErr result (world.new.world ≡ world.old.world) }
    ensures not_recorded { OnErr result (undo.new.backs ≡ undo.old.backs) }
    ensures since { Since world.old.world undo.old.backs world.new.world undo.new.backs }
    ensures undoable { Undoable world.new undo.new.backs }
{
    world.recall_kept();
    let made = undo.len();
    let lines = all_lines(alloc, world, students, undo, steps);
    if lines.is_err() {
        world.undo_to(undo, made);
    }
    lines
}

/// The lines of all students. Where memory runs out, some may have been enrolled.
fn all_lines<L: Ledger>(
    alloc: Global,
    world: &mut World,
    students: &[StudentId],
    undo: &mut Undo,
    steps: &mut Steps<L>,
) -> Result<Items<Line>, Memory>
    requires known { IsTrue (list_all (λ s. is_some (find_student world.old.world.students s)) students.now) }
    requires undoable { Undoable world.old undo.old.backs }
    ensures world { OnOk result (world.new.world ≡ (batch_of world.old.world students.now).world) }
    ensures lines { IfOk result (λ lines. lines ≡ map (λ a. a.line) (batch_of world.old.world students.now).answered) }
    ensures since { Since world.old.world undo.old.backs world.new.world undo.new.backs }
    ensures undoable { Undoable world.new undo.new.backs }
{
    let mut lines = Lines::with_room(alloc, most_lines(world, students))?;
    for student in students {
        student_lines(alloc, world, *student, &mut lines, undo, steps)?;
    }
    Ok(lines.into_items())
}

/// How many lines the students have at most: as many as requests, of which a free time makes none. It is only room: nothing rests
/// on it.
fn most_lines(world: &World, students: &[StudentId]) -> usize {
    let mut most: usize = 0;
    for student in students {
        most = most.saturating_add(world.asks(*student).len());
    }
    most
}

/// The lines of one student.
fn student_lines<L: Ledger>(
    alloc: Global,
    world: &mut World,
    student: StudentId,
    lines: &mut Lines,
    undo: &mut Undo,
    steps: &mut Steps<L>,
) -> Result<(), Memory>
    requires known { IsTrue (is_some (find_student world.old.world.students student)) }
    requires undoable { Undoable world.old undo.old.backs }
    ensures told { OnOk result ((b : Batched) → Tells world.old.world lines.old b
        → Tells world.new.world lines.new (batch_asks b student (enumerate_from 1 (requests_of world.old.world student)))) }
    ensures students { world.new.world.students ≡ world.old.world.students }
    ensures since { Since world.old.world undo.old.backs world.new.world undo.new.backs }
    ensures undoable { Undoable world.new undo.new.backs }
{
    let count = world.asks(student).len();
    let mut place = 0;
    while place < count {
        place = some_lines(alloc, world, student, place, lines, undo, steps)?;
    }
    Ok(())
}

/// The lines of the student's requests from a place on, up to the first that takes a place in a course. The place behind them.
fn some_lines<L: Ledger>(
    alloc: Global,
    world: &mut World,
    student: StudentId,
    from: usize,
    lines: &mut Lines,
    undo: &mut Undo,
    steps: &mut Steps<L>,
) -> Result<usize, Memory>
    requires known { IsTrue (is_some (find_student world.old.world.students student)) }
    requires from { from < length (requests_of world.old.world student) }
    requires undoable { Undoable world.old undo.old.backs }
    ensures on { IfOk result (λ place. from < place) }
    ensures told { IfOk result (λ place. ToldOn student (requests_of world.old.world student) world.old.world lines.old from world.new.world lines.new place) }
    ensures students { world.new.world.students ≡ world.old.world.students }
    ensures since { Since world.old.world undo.old.backs world.new.world undo.new.backs }
    ensures undoable { Undoable world.new undo.new.backs }
{
    let stop = lines_to_choice(alloc, world, student, from, lines, steps)?;
    let Stop { place, choice } = stop;
    match choice {
        Some(choice) => {
            enrol(world, student, choice, undo)?;
            Ok(place)
        }
        None => Ok(place),
    }
}

/// The lines of the student's requests from a place on, up to the first with a choice, by which the student is yet to be enrolled.
fn lines_to_choice<L: Ledger>(
    alloc: Global,
    world: &World,
    student: StudentId,
    from: usize,
    lines: &mut Lines,
    steps: &mut Steps<L>,
) -> Result<Stop, Memory>
    requires known { IsTrue (is_some (find_student world.now.world.students student)) }
    requires from { from < length (requests_of world.now.world student) }
    ensures on { IfOk result (λ stop. from < stop.place) }
    ensures told { IfOk result (λ stop. ToldOn student (requests_of world.now.world student) world.now.world lines.old from
        (taking world.now.world student stop.choice) lines.new stop.place) }
    ensures fits { IfOk result (λ stop. ChoiceFits world.now.world student stop.choice) }
{
    world.recall_kept();
    let asks = world.asks(student);
    let held = world.enrolments(student);
    for place in from..asks.len() {
        let answer = answer_ask(
            alloc,
            world,
            student,
            place,
            &asks[place],
            held,
            lines,
            steps,
        )?;
        if let Some(choice) = put_line(student, rank(place), answer, lines)? {
            return Ok(Stop {
                place: place + 1,
                choice: Some(choice),
            });
        }
    }
    Ok(Stop {
        place: asks.len(),
        choice: None,
    })
}

/// Puts the line of an answer behind the others. The line's choice, where it has one.
fn put_line(
    student: StudentId,
    rank: u8,
    answer: Option<Answer>,
    lines: &mut Lines,
) -> Result<Option<Choice>, Memory>
    ensures { IfOk result (λ choice. IsPut student rank answer lines.old lines.new choice) }
{
    match answer {
        Some(answer) => {
            let choice = choice_of(&answer.result);
            lines.push(student, rank, answer)?;
            Ok(choice)
        }
        None => Ok(None),
    }
}

/// What becomes of a request, None where it is a free time.
fn answer_ask<L: Ledger>(
    alloc: Global,
    world: &World,
    student: StudentId,
    place: usize,
    ask: &Ask,
    held: &[Enrolment],
    lines: &Lines,
    steps: &mut Steps<L>,
) -> Result<Option<Answer>, Memory>
    requires known { IsTrue (is_some (find_student world.now.world.students student)) }
    requires place { place < 20 }
    requires fits { IsTrue (ask_fits world.now.world ask.now) }
    requires held { held.now ≡ held_by world.now.world student }
    ensures answer { IfOk result (λ answer. (b : Batched) → Tells world.now.world lines.now b → answer ≡ answer_to_ask b student (place + 1) ask.now) }
    ensures met { IfOk result (λ answer. IfSome answer (λ a. MetFits world.now.world student a.result)) }
{
    match ask {
        Ask::Course(ask) => {
            let answer = answer_to(alloc, world, student, rank(place), ask, held, lines, steps)?;
            Ok(Some(answer))
        }
        Ask::Free(_) => Ok(None),
    }
}

/// The position of the request at a place, from 1.
fn rank(place: usize) -> u8
    requires { place < 20 }
    ensures { result ≡ place + 1 }
{
    place as u8 + 1
}

/// Enrols the student by the choice.
fn enrol(
    world: &mut World,
    student: StudentId,
    choice: Choice,
    undo: &mut Undo,
) -> Result<(), Memory>
    requires fits { Fits world.old.world (Change.Enrol (record { student = student; choice = choice })) }
    requires undoable { Undoable world.old undo.old.backs }
    ensures ok { OnOk result (world.new.world ≡ world_with world.old.world student choice) }
    ensures students { world.new.world.students ≡ world.old.world.students }
    ensures since { Since world.old.world undo.old.backs world.new.world undo.new.backs }
    ensures undoable { Undoable world.new undo.new.backs }
{
    world.apply(Change::Enrol(Enrolment { student, choice }), undo)
}
