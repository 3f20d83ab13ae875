// The words behind that of a command.

ghost use Rattle.std.specs.Prelude.{◌≡◌, codes};
ghost use Rattle.sect_check.specs.Walks.{
  Walks,
  arguments_walk,
  drop_walk,
  enrol_walk,
  expire_walk,
  limit_walk,
  offering_walk,
  requests_walk,
  reserve_walk,
  restrict_walk,
  student_walk,
  swap_walk,
  unwait_walk,
  wait_walk,
};

use crate::form::{Form, Halt};
use crate::groups::{
    Ask, ConfigName, ConfigRow, CourseRow, CurriculumName, Give, GroupName, SectionName, Take, want,
};
use crate::walk::{each, key, level, mark, option, word};
use sect_read::Verb;
use sect_words::Parts;
use std::alloc::Global;

/// Passes the row of an offering.
#[tactic(auto, unfolding(crate::specs::Walks::offering_walk))]
fn offering(alloc: Global, words: &mut Parts) -> Result<(), Halt>
    ensures { Walks result words.new (offering_walk words.old) }
{
    word(alloc, Form::Id, words)?;
    each::<CourseRow>(alloc, words)?;
    each::<ConfigRow>(alloc, words)
}

/// Passes the row of a student.
#[tactic(auto, unfolding(crate::specs::Walks::student_walk))]
fn student(alloc: Global, words: &mut Parts) -> Result<(), Halt>
    ensures { Walks result words.new (student_walk words.old) }
{
    word(alloc, Form::Id, words)?;
    key(b"max", Form::Max, words)?;
    word(alloc, Form::MostCredits, words)?;
    each::<GroupName>(alloc, words)?;
    each::<CurriculumName>(alloc, words)
}

/// Passes a student and its requests.
#[tactic(auto, unfolding(crate::specs::Walks::requests_walk))]
fn requests(alloc: Global, words: &mut Parts) -> Result<(), Halt>
    ensures { Walks result words.new (requests_walk words.old) }
{
    word(alloc, Form::Id, words)?;
    each::<Ask>(alloc, words)
}

/// Passes the row of a reservation.
#[tactic(auto, unfolding(crate::specs::Walks::reserve_walk))]
fn reserve(alloc: Global, words: &mut Parts) -> Result<(), Halt>
    ensures { Walks result words.new (reserve_walk words.old) }
{
    word(alloc, Form::Id, words)?;
    word(alloc, Form::Id, words)?;
    word(alloc, Form::Audience, words)?;
    word(alloc, Form::Limit, words)?;
    word(alloc, Form::OptionalDay, words)?;
    option(alloc, b"from", Form::Day, words)?;
    each::<ConfigName>(alloc, words)?;
    each::<SectionName>(alloc, words)?;
    mark(b"over", words);
    mark(b"overlap", words);
    mark(b"must", words);
    Ok(())
}

/// Passes a reservation and its last day.
#[tactic(auto, unfolding(crate::specs::Walks::expire_walk))]
fn expire(alloc: Global, words: &mut Parts) -> Result<(), Halt>
    ensures { Walks result words.new (expire_walk words.old) }
{
    word(alloc, Form::Id, words)?;
    word(alloc, Form::OptionalDay, words)
}

/// Passes the row of a restriction.
#[tactic(auto, unfolding(crate::specs::Walks::restrict_walk))]
fn restrict(alloc: Global, words: &mut Parts) -> Result<(), Halt>
    ensures { Walks result words.new (restrict_walk words.old) }
{
    word(alloc, Form::Id, words)?;
    word(alloc, Form::Id, words)?;
    word(alloc, Form::Audience, words)?;
    each::<ConfigName>(alloc, words)?;
    each::<SectionName>(alloc, words)
}

/// Passes a level, its id and a limit.
#[tactic(auto, unfolding(crate::specs::Walks::limit_walk))]
fn limit(alloc: Global, words: &mut Parts) -> Result<(), Halt>
    ensures { Walks result words.new (limit_walk words.old) }
{
    level(words)?;
    word(alloc, Form::Id, words)?;
    word(alloc, Form::Limit, words)
}

/// Passes a student, a want and, where it is named, the budget.
#[tactic(auto, unfolding(crate::specs::Walks::enrol_walk))]
fn enrol(alloc: Global, words: &mut Parts) -> Result<(), Halt>
    ensures { Walks result words.new (enrol_walk words.old) }
{
    word(alloc, Form::Id, words)?;
    want(alloc, words)?;
    option(alloc, b"budget", Form::UpTo(20_000), words)
}

/// Passes a student and the course that is dropped.
#[tactic(auto, unfolding(crate::specs::Walks::drop_walk))]
fn give_up(alloc: Global, words: &mut Parts) -> Result<(), Halt>
    ensures { Walks result words.new (drop_walk words.old) }
{
    word(alloc, Form::Id, words)?;
    word(alloc, Form::Id, words)
}

/// Passes a student, what is given up, what is taken and, where it is named, the budget.
#[tactic(auto, unfolding(crate::specs::Walks::swap_walk))]
fn swap(alloc: Global, words: &mut Parts) -> Result<(), Halt>
    ensures { Walks result words.new (swap_walk words.old) }
{
    word(alloc, Form::Id, words)?;
    each::<Give>(alloc, words)?;
    each::<Take>(alloc, words)?;
    option(alloc, b"budget", Form::UpTo(20_000), words)
}

/// Passes a student, a want and, where they are named, what is given up and the class.
#[tactic(auto, unfolding(crate::specs::Walks::wait_walk))]
fn wait(alloc: Global, words: &mut Parts) -> Result<(), Halt>
    ensures { Walks result words.new (wait_walk words.old) }
{
    word(alloc, Form::Id, words)?;
    want(alloc, words)?;
    option(alloc, b"give", Form::Id, words)?;
    option(alloc, b"class", Form::UpTo(9), words)
}

/// Passes a student and a ticket.
#[tactic(auto, unfolding(crate::specs::Walks::unwait_walk))]
fn unwait(alloc: Global, words: &mut Parts) -> Result<(), Halt>
    ensures { Walks result words.new (unwait_walk words.old) }
{
    word(alloc, Form::Id, words)?;
    word(alloc, Form::Number, words)
}

/// Passes what stands behind the word of this command.
#[tactic(auto, unfolding(crate::specs::Walks::arguments_walk))]
pub(crate) fn arguments(alloc: Global, verb: Verb, words: &mut Parts) -> Result<(), Halt>
    ensures { Walks result words.new (arguments_walk verb words.old) }
{
    match verb {
        Verb::Offering => offering(alloc, words),
        Verb::Student => student(alloc, words),
        Verb::Requests => requests(alloc, words),
        Verb::Reserve => reserve(alloc, words),
        Verb::Unreserve => word(alloc, Form::Id, words),
        Verb::Expire => expire(alloc, words),
        Verb::Restrict => restrict(alloc, words),
        Verb::Unrestrict => word(alloc, Form::Id, words),
        Verb::Limit => limit(alloc, words),
        Verb::Cancel => word(alloc, Form::Id, words),
        Verb::Enrol => enrol(alloc, words),
        Verb::Drop => give_up(alloc, words),
        Verb::Swap => swap(alloc, words),
        Verb::Wait => wait(alloc, words),
        Verb::Unwait => unwait(alloc, words),
        Verb::Batch => word(alloc, Form::Ids, words),
    }
}
