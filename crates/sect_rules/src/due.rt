// What is decided next at a node of a search, and its options.

ghost use Rattle.std.specs.Prelude.{◌≡◌, slice_get, Contains, IfSome};
ghost use Rattle.std.specs.Option.{option_map};
ghost use Rattle.sect_model.specs.Path.{options_at};
ghost use Rattle.sect_model.specs.Rules.{leaf_of};
ghost use Rattle.sect_rules.specs.Due.{place_of, place_at, pick_at, wanted_place, course_place, joined_place, config_place, IsStep};

use crate::configured::Configured;
use crate::joined::Joined;
use crate::on_course::OnCourse;
use crate::wanted::Wanted;
use sect_base::{CourseId, Rule};
use sect_catalog::{ConfigRow, SectionRow};
use sect_reserve::Reservation;

/// What is decided next, with what was decided before it.
#[derive(Clone, Copy)]
pub enum Due<'a> {
    /// A course of the want.
    Course(&'a Wanted<'a>),
    /// A reservation of the course's offering, or none.
    Reservation(&'a OnCourse<'a>),
    /// A configuration of the offering.
    Config(&'a Joined<'a>),
    /// A section of the next subpart.
    Section(&'a Configured<'a>),
}

/// An option, with what was decided before it. A reservation, a configuration and a section come with their rows.
#[derive(Clone, Copy)]
pub enum Step<'a> {
    Course(&'a Wanted<'a>, CourseId),
    Reservation(&'a OnCourse<'a>, Option<&'a Reservation>),
    Config(&'a Joined<'a>, &'a ConfigRow),
    Section(&'a Configured<'a>, &'a SectionRow),
}

/// The option at a place: the want's courses as given, or the offering's reservations, obligatory ones first and each part by
/// id, and behind them none, or its configurations by id, or the sections of the next subpart by id. None exactly past the last.
/// It takes no memory.
#[inline(always)]
pub fn step_at<'a>(due: Due<'a>, i: usize) -> Option<Step<'a>>
    ensures value { option_map pick_at result ≡ slice_get (options_at (place_of due.entry).world (place_of due.entry).mv (place_of due.entry).path) i }
    ensures place { IfSome result (λ step. place_at step ≡ place_of due.entry) }
    ensures option { IfSome result (λ step. Contains (options_at (place_at step).world (place_at step).mv (place_at step).path) (pick_at step)) }
    ensures row { IfSome result IsStep }
{
    step_in(due, i)
}

/// The same.
#[inline(always)]
fn step_in<'a>(due: Due<'a>, i: usize) -> Option<Step<'a>>
    ensures value { option_map pick_at result ≡ slice_get (options_at (place_of due.entry).world (place_of due.entry).mv (place_of due.entry).path) i }
    ensures place { IfSome result (λ step. place_at step ≡ place_of due.entry) }
    ensures row { IfSome result IsStep }
{
    match due {
        Due::Course(wanted) => course_step(wanted, i),
        Due::Reservation(on) => reservation_step(on, i),
        Due::Config(by) => config_step(by, i),
        Due::Section(inside) => section_step(inside, i),
    }
}

/// The first rule that the option breaks, with its number. It takes no memory.
#[inline(always)]
pub fn broken(step: Step) -> Option<(Rule, u32)>
    requires option { Contains (options_at (place_at step).world (place_at step).mv (place_at step).path) (pick_at step) }
    requires row { IsStep step }
    ensures { result ≡ leaf_of (place_at step.entry).world (place_at step.entry).mv (place_at step.entry).path (pick_at step.entry) }
{
    match step {
        Step::Course(wanted, course) => wanted.broken(course),
        Step::Reservation(on, row) => on.broken(row),
        Step::Config(by, row) => by.broken(row),
        Step::Section(inside, row) => inside.broken(row),
    }
}

/// The course at a place, as an option.
#[inline(always)]
fn course_step<'a>(wanted: &'a Wanted<'a>, i: usize) -> Option<Step<'a>>
    ensures value { option_map pick_at result ≡ slice_get (options_at (wanted_place wanted.now).world (wanted_place wanted.now).mv (wanted_place wanted.now).path) i }
    ensures place { IfSome result (λ step. place_at step ≡ wanted_place wanted.now) }
    ensures row { IfSome result IsStep }
{
    let course = wanted.course(i)?;
    Some(Step::Course(wanted, course))
}

/// The reservation at a place, or none, as an option.
#[inline(always)]
fn reservation_step<'a>(on: &'a OnCourse<'a>, i: usize) -> Option<Step<'a>>
    ensures value { option_map pick_at result ≡ slice_get (options_at (course_place on.now).world (course_place on.now).mv (course_place on.now).path) i }
    ensures place { IfSome result (λ step. place_at step ≡ course_place on.now) }
    ensures row { IfSome result IsStep }
{
    let row = on.reservation(i)?;
    Some(Step::Reservation(on, row))
}

/// The configuration at a place, as an option.
#[inline(always)]
fn config_step<'a>(by: &'a Joined<'a>, i: usize) -> Option<Step<'a>>
    ensures value { option_map pick_at result ≡ slice_get (options_at (joined_place by.now).world (joined_place by.now).mv (joined_place by.now).path) i }
    ensures place { IfSome result (λ step. place_at step ≡ joined_place by.now) }
    ensures row { IfSome result IsStep }
{
    let row = by.config(i)?;
    Some(Step::Config(by, row))
}

/// The section at a place, as an option.
#[inline(always)]
fn section_step<'a>(inside: &'a Configured<'a>, i: usize) -> Option<Step<'a>>
    ensures value { option_map pick_at result ≡ slice_get (options_at (config_place inside.now).world (config_place inside.now).mv (config_place inside.now).path) i }
    ensures place { IfSome result (λ step. place_at step ≡ config_place inside.now) }
    ensures row { IfSome result IsStep }
{
    let row = inside.section(i)?;
    Some(Step::Section(inside, row))
}
