// The enrolments of a student that leave and that stay, and the choices made.

ghost use Rattle.std.specs.Prelude.{◌≡◌, ◌<◌, ◌≤◌, ◌^◌, ◌&&◌, ◌==◌, not, cond, length, filter, count_by, sum_by};
ghost use Rattle.std.specs.List.{list_any};
ghost use Rattle.std.specs.Option.{option_map_or};
ghost use Rattle.sect_model.specs.World.{credits_of, held_by};
ghost use Rattle.sect_moment.specs.Moment.{is_given as given_up, counts_at as choice_counts, uses};

use sect_base::{Choice, CourseId, Level, ReservationId, StudentId};
use sect_catalog::CourseRow;
use sect_model::Enrolment;
use sect_space::World;

/// Whether the course is given up.
pub fn is_given(give: &[CourseId], course: CourseId) -> bool
    ensures { result ≡ given_up give.now course }
{
    give.iter().any(|other| course == *other)
}

/// Whether a choice counts at the level.
fn counts_at(world: &World, level: Level, choice: &Choice) -> bool
    ensures { result ≡ choice_counts world.now.world level choice.now }
{
    match level {
        Level::Course(id) => choice.course == id,
        Level::Offering(id) => world.is_of(id, choice.course),
        Level::Config(id) => choice.config == id,
        Level::Section(id) => choice.sections.as_slice().contains(&id),
    }
}

/// How many of the student's enrolments leave and count at the level. Where nothing is given up, none is looked at.
#[inline(always)]
pub fn counts_given(world: &World, level: Level, give: &[CourseId], student: StudentId) -> usize
    ensures { result ≡ count_by (λ e. given_up give.now e.choice.course && choice_counts world.now.world level e.choice) (held_by world.now.world student) }
{
    if give.is_empty() {
        return 0;
    }
    counts_leaving(world, level, give, student)
}

/// How many of the student's enrolments leave and count at the level, each of which is looked at.
fn counts_leaving(world: &World, level: Level, give: &[CourseId], student: StudentId) -> usize
    ensures { result ≡ count_by (λ e. given_up give.now e.choice.course && choice_counts world.now.world level e.choice) (held_by world.now.world student) }
{
    world
        .enrolments(student)
        .iter()
        .filter(|e| is_given(give, e.choice.course) && counts_at(world, level, &e.choice))
        .count()
}

/// How many of the choices count at the level. Where none is made, nothing is called.
#[inline(always)]
pub fn counts_made(world: &World, level: Level, done: &[Choice]) -> usize
    ensures { result ≡ count_by (choice_counts world.now.world level) done.now }
{
    if done.is_empty() {
        return 0;
    }
    counts_among(world, level, done)
}

/// How many of the choices count at the level, each of which is looked at.
fn counts_among(world: &World, level: Level, done: &[Choice]) -> usize
    ensures { result ≡ count_by (choice_counts world.now.world level) done.now }
{
    done.iter()
        .filter(|choice| counts_at(world, level, choice))
        .count()
}

/// Whether the choice is by the reservation.
fn is_by(id: ReservationId, choice: &Choice) -> bool
    ensures { result ≡ uses id choice.now }
{
    match choice.reservation {
        Some(used) => used == id,
        None => false,
    }
}

/// How many of the student's enrolments leave and are by the reservation. Where nothing is given up, none is looked at.
pub fn given_by(world: &World, id: ReservationId, give: &[CourseId], student: StudentId) -> usize
    ensures { result ≡ count_by (λ e. given_up give.now e.choice.course && uses id e.choice) (held_by world.now.world student) }
{
    if give.is_empty() {
        return 0;
    }
    world
        .enrolments(student)
        .iter()
        .filter(|e| is_given(give, e.choice.course) && is_by(id, &e.choice))
        .count()
}

/// How many of the choices are by the reservation.
pub fn made_by(id: ReservationId, done: &[Choice]) -> usize
    ensures { result ≡ count_by (uses id) done.now }
{
    done.iter().filter(|choice| is_by(id, choice)).count()
}

/// Whether the course is one of the rows.
fn is_listed(courses: &[CourseRow], id: CourseId) -> bool
    ensures { result ≡ list_any (λ c. c.id.0 == id.0) courses.now }
{
    courses.iter().any(|row| row.id == id)
}

/// Whether an enrolment that stays is in one of the courses.
pub fn holds_kept(courses: &[CourseRow], give: &[CourseId], held: &[Enrolment]) -> bool
    ensures { result ≡ list_any (λ e. not (given_up give.now e.choice.course) && list_any (λ c. c.id.0 == e.choice.course.0) courses.now) held.now }
{
    held.iter().any(|e| !is_given(give, e.choice.course) && is_listed(courses, e.choice.course))
}

/// Whether a choice is of one of the courses.
pub fn holds_made(courses: &[CourseRow], done: &[Choice]) -> bool
    ensures { result ≡ list_any (λ d. list_any (λ c. c.id.0 == d.course.0) courses.now) done.now }
{
    done.iter().any(|choice| is_listed(courses, choice.course))
}

/// The credits of a course, 0 where it is unknown.
fn credits(world: &World, course: CourseId) -> u8
    ensures { result ≡ credits_of world.now.world course }
{
    match world.catalogue().course(course) {
        Some((_, row)) => row.credits,
        None => 0,
    }
}

/// The credits of the enrolments that stay.
fn credits_kept(world: &World, give: &[CourseId], held: &[Enrolment]) -> u32
    requires { sum_by (λ e. cond (given_up give.now e.choice.course) 0 (credits_of world.now.world e.choice.course)) held.now < 2 ^ 32 }
    ensures { result ≡ sum_by (λ e. cond (given_up give.now e.choice.course) 0 (credits_of world.now.world e.choice.course)) held.now }
{
    let mut total = 0;
    for e in held {
        if !is_given(give, e.choice.course) {
            total += u32::from(credits(world, e.choice.course));
        }
    }
    total
}

/// The credits of what a student holds and keeps. Where nothing is given up, they are kept beside the world, and no enrolment
/// is looked at.
pub fn credits_staying(world: &World, give: &[CourseId], student: StudentId) -> u32
    requires { sum_by (λ e. cond (given_up give.now e.choice.course) 0 (credits_of world.now.world e.choice.course)) (held_by world.now.world student) < 2 ^ 32 }
    ensures { result ≡ sum_by (λ e. cond (given_up give.now e.choice.course) 0 (credits_of world.now.world e.choice.course)) (held_by world.now.world student) }
{
    if give.is_empty() {
        return world.credits_held(student) as u32;
    }
    credits_kept(world, give, world.enrolments(student))
}

/// The credits of at most twenty choices.
pub fn credits_made(world: &World, done: &[Choice]) -> u32
    requires { length done.now ≤ 20 }
    ensures value { result ≡ sum_by (λ c. credits_of world.now.world c.course) done.now }
    ensures bound { result ≤ 5100 }
{
    let mut total = 0;
    for choice in done {
        total += u32::from(credits(world, choice.course));
    }
    total
}
