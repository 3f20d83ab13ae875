// The commands of bodies.

ghost use Rattle.std.specs.Prelude.{◌≡◌, codes};
ghost use Rattle.serde_json.specs.View.{view};
ghost use Rattle.sect_words.specs.Reading.{Means};
ghost use Rattle.sect_wire.specs.Values.{has_only as has_only_of, required as required_of};
ghost use Rattle.sect_wire.specs.Bodies.{
  arguments_in,
  budget_in,
  command_with,
  drop_in,
  enrol_in,
  names_of,
  swap_in,
  take_in,
  take_names,
  text_in,
  unwait_in,
  verb_in,
  verb_of,
  wait_in,
  want_in,
  written,
};

use crate::field::{has_only, optional, required, stated};
use crate::from_json::FromJson;
use sect_base::{Budget, Items, Want};
use sect_command::Command;
use sect_read::{WireFault, read_command};
use sect_words::Fault;
use serde_json::Value;
use std::alloc::Global;

/// What a body may ask for.
#[derive(Clone, Copy, PartialEq, Eq)]
pub(crate) enum Verb {
    Enrol,
    Drop,
    Swap,
    Wait,
    Unwait,
    // A command that is written as on a line.
    Line,
}

/// The verb of this name.
fn verb_of(name: &str) -> Option<Verb>
    ensures { result ≡ verb_of name.now }
{
    if name == "enrol" {
        return Some(Verb::Enrol);
    }
    if name == "drop" {
        return Some(Verb::Drop);
    }
    if name == "swap" {
        return Some(Verb::Swap);
    }
    if name == "wait" {
        return Some(Verb::Wait);
    }
    if name == "unwait" {
        return Some(Verb::Unwait);
    }
    if name == "line" {
        return Some(Verb::Line);
    }
    None
}

impl FromJson for Verb {
    ghost reads = { verb_in };

    fn read(_alloc: Global, value: &Value) -> Result<Verb, Fault> {
        let Some(name) = value.as_str() else {
            return Err(Fault::Bad);
        };
        match verb_of(name) {
            Some(verb) => Ok(verb),
            None => Err(Fault::Bad),
        }
    }
}

/// Whether each member of a body belongs to its verb.
fn is_named(verb: Verb, value: &Value) -> bool
    ensures { result ≡ has_only_of (names_of verb) (view value.now) }
{
    match verb {
        Verb::Enrol => has_only(
            value,
            &["verb", "student", "courses", "only", "rank", "budget"],
        ),
        Verb::Drop => has_only(value, &["verb", "student", "course"]),
        Verb::Swap => has_only(value, &["verb", "student", "give", "take", "budget"]),
        Verb::Wait => has_only(
            value,
            &[
                "verb", "student", "courses", "only", "rank", "give", "class",
            ],
        ),
        Verb::Unwait => has_only(value, &["verb", "student", "ticket"]),
        Verb::Line => has_only(value, &["verb", "text"]),
    }
}

/// What is wanted: courses, the only sections, none by default, and a rank, 21 by default.
#[tactic(auto, unfolding(crate::specs::Bodies::want_in))]
fn want(alloc: Global, value: &Value) -> Result<Want, Fault>
    ensures { Means result (want_in (view value.now)) }
{
    let courses = required(alloc, value, "courses")?;
    let only = optional(alloc, value, "only", Items::from_vec(Vec::new(alloc)))?;
    let rank = stated(value, "rank", 21, 21)? as u8;
    Ok(Want {
        courses,
        only,
        rank,
    })
}

#[tactic(auto, unfolding(crate::specs::Bodies::take_in))]
impl FromJson for Want {
    ghost reads = { take_in };

    fn read(alloc: Global, value: &Value) -> Result<Want, Fault> {
        if !has_only(value, &["courses", "only", "rank"]) {
            return Err(Fault::Bad);
        }
        want(alloc, value)
    }
}

/// The budget, 2,000 by default.
fn budget(value: &Value) -> Result<Budget, Fault>
    ensures { Means result (budget_in (view value.now)) }
{
    match Budget::new(stated(value, "budget", 20_000, 2000)?) {
        Some(budget) => Ok(budget),
        None => unreachable!(),
    }
}

/// The command of a student, a want and a budget.
#[tactic(auto, unfolding(crate::specs::Bodies::enrol_in))]
fn enrol(alloc: Global, value: &Value) -> Result<Command, Fault>
    ensures { Means result (enrol_in (view value.now)) }
{
    let student = required(alloc, value, "student")?;
    let want = want(alloc, value)?;
    let budget = budget(value)?;
    Ok(Command::Enrol {
        student,
        want,
        budget,
    })
}

/// The command of a student and a course that is given up.
#[tactic(auto, unfolding(crate::specs::Bodies::drop_in))]
fn drop_course(alloc: Global, value: &Value) -> Result<Command, Fault>
    ensures { Means result (drop_in (view value.now)) }
{
    let student = required(alloc, value, "student")?;
    let course = required(alloc, value, "course")?;
    Ok(Command::Drop { student, course })
}

/// The command of a student, the courses that are given up, the wants that are taken, and a budget.
#[tactic(auto, unfolding(crate::specs::Bodies::swap_in))]
fn swap(alloc: Global, value: &Value) -> Result<Command, Fault>
    ensures { Means result (swap_in (view value.now)) }
{
    let student = required(alloc, value, "student")?;
    let give = required(alloc, value, "give")?;
    let take = required(alloc, value, "take")?;
    let budget = budget(value)?;
    Ok(Command::Swap {
        student,
        give,
        take,
        budget,
    })
}

/// The command of a student, a want, the course that is given up when it comes, none by default, and a class, 5 by default.
#[tactic(auto, unfolding(crate::specs::Bodies::wait_in))]
fn wait(alloc: Global, value: &Value) -> Result<Command, Fault>
    ensures { Means result (wait_in (view value.now)) }
{
    let student = required(alloc, value, "student")?;
    let want = want(alloc, value)?;
    let give = optional(alloc, value, "give", None)?;
    let class = stated(value, "class", 9, 5)? as u8;
    Ok(Command::Wait {
        student,
        want,
        give,
        class,
    })
}

/// The command of a student and a ticket.
#[tactic(auto, unfolding(crate::specs::Bodies::unwait_in))]
fn unwait(alloc: Global, value: &Value) -> Result<Command, Fault>
    ensures { Means result (unwait_in (view value.now)) }
{
    let student = required(alloc, value, "student")?;
    let ticket = required(alloc, value, "ticket")?;
    Ok(Command::Unwait { student, ticket })
}

/// The command that a text is.
fn written(alloc: Global, text: &str) -> Result<Command, Fault>
    ensures { Means result (written text.now) }
{
    match read_command(alloc, text.as_bytes()) {
        Ok(command) => Ok(command),
        Err(WireFault::Memory) => Err(Fault::Memory),
        Err(_) => Err(Fault::Bad),
    }
}

/// The command that stands in the member `text`.
fn line(alloc: Global, value: &Value) -> Result<Command, Fault>
    ensures { Means result (required_of text_in (codes "text") (view value.now)) }
{
    let Some(found) = value.get("text") else {
        return Err(Fault::Bad);
    };
    match found.as_str() {
        Some(text) => written(alloc, text),
        None => Err(Fault::Bad),
    }
}

/// The command that the members of a body with this verb say.
fn arguments(alloc: Global, verb: Verb, value: &Value) -> Result<Command, Fault>
    ensures { Means result (arguments_in verb (view value.now)) }
{
    match verb {
        Verb::Enrol => enrol(alloc, value),
        Verb::Drop => drop_course(alloc, value),
        Verb::Swap => swap(alloc, value),
        Verb::Wait => wait(alloc, value),
        Verb::Unwait => unwait(alloc, value),
        Verb::Line => line(alloc, value),
    }
}

/// The command of a body with this verb.
#[tactic(auto, unfolding(crate::specs::Bodies::command_with))]
pub(crate) fn command(alloc: Global, verb: Verb, value: &Value) -> Result<Command, Fault>
    ensures { Means result (command_with verb (view value.now)) }
{
    if !is_named(verb, value) {
        return Err(Fault::Bad);
    }
    arguments(alloc, verb, value)
}
