// Reading commands. The reader of each verb stays a function of its own, which writes its command where the caller wants it.

ghost use Rattle.std.specs.Prelude.{◌≡◌, codes};
ghost use Rattle.sect_words.specs.Reading.{Reads};
ghost use Rattle.sect_read.specs.ReadingCommands.{
  offering_command_at,
  student_command_at,
  requests_at,
  reserve_command_at,
  unreserve_at,
  expire_at,
  restrict_command_at,
  unrestrict_at,
  set_limit_at,
  cancel_at,
  enrol_at,
  drop_at,
  swap_at,
  wait_at,
  unwait_at,
  batch_at,
  arguments_at,
  command_at,
};

use crate::read_phrase::read_each;
use crate::read_rows::{read_cap, read_offering, read_reserve, read_restrict, read_student};
use crate::read_want::{read_budget, read_give, read_stated, read_want};
use crate::verb::{Verb, verb_of};
use sect_command::Command;
use sect_words::{Fault, Parts};
use std::alloc::Global;

/// The command that sets a student's requests.
#[tactic(auto, unfolding(crate::specs::ReadingCommands::requests_at))]
#[inline(never)]
fn read_requests(alloc: Global, words: &mut Parts) -> Result<Command, Fault>
    ensures { Reads result words.new (requests_at words.old) }
{
    let student = words.word(alloc)?;
    let asks = read_each(alloc, false, words)?;
    Ok(Command::Requests { student, asks })
}

/// The command that sets a reservation's last day, or that there is none.
#[tactic(auto, unfolding(crate::specs::ReadingCommands::expire_at))]
#[inline(never)]
fn read_expire(alloc: Global, words: &mut Parts) -> Result<Command, Fault>
    ensures { Reads result words.new (expire_at words.old) }
{
    let reservation = words.word(alloc)?;
    let expiry = words.word(alloc)?;
    Ok(Command::Expire {
        reservation,
        expiry,
    })
}

/// The command that sets a limit.
#[tactic(auto, unfolding(crate::specs::ReadingCommands::set_limit_at))]
#[inline(never)]
fn read_limit(alloc: Global, words: &mut Parts) -> Result<Command, Fault>
    ensures { Reads result words.new (set_limit_at words.old) }
{
    let cap = read_cap(alloc, words)?;
    let limit = words.word(alloc)?;
    Ok(Command::SetLimit { cap, limit })
}

/// The command that enrols a student. Where `shown`, a default may be written.
#[tactic(auto, unfolding(crate::specs::ReadingCommands::enrol_at))]
#[inline(never)]
fn read_enrol(alloc: Global, shown: bool, words: &mut Parts) -> Result<Command, Fault>
    ensures { Reads result words.new (enrol_at shown words.old) }
{
    let student = words.word(alloc)?;
    let want = read_want(alloc, shown, words)?;
    let budget = read_budget(shown, words)?;
    Ok(Command::Enrol {
        student,
        want,
        budget,
    })
}

/// The command that gives a student's course up.
#[tactic(auto, unfolding(crate::specs::ReadingCommands::drop_at))]
#[inline(never)]
fn read_drop(alloc: Global, words: &mut Parts) -> Result<Command, Fault>
    ensures { Reads result words.new (drop_at words.old) }
{
    let student = words.word(alloc)?;
    let course = words.word(alloc)?;
    Ok(Command::Drop { student, course })
}

/// The command that gives courses up and takes others. Where `shown`, a default may be written.
#[tactic(auto, unfolding(crate::specs::ReadingCommands::swap_at))]
#[inline(never)]
fn read_swap(alloc: Global, shown: bool, words: &mut Parts) -> Result<Command, Fault>
    ensures { Reads result words.new (swap_at shown words.old) }
{
    let student = words.word(alloc)?;
    let give = read_each(alloc, shown, words)?;
    let take = read_each(alloc, shown, words)?;
    let budget = read_budget(shown, words)?;
    Ok(Command::Swap {
        student,
        give,
        take,
        budget,
    })
}

/// The command that puts a student on the wait-list. Where `shown`, a default may be written.
#[tactic(auto, unfolding(crate::specs::ReadingCommands::wait_at))]
#[inline(never)]
fn read_wait(alloc: Global, shown: bool, words: &mut Parts) -> Result<Command, Fault>
    ensures { Reads result words.new (wait_at shown words.old) }
{
    let student = words.word(alloc)?;
    let want = read_want(alloc, shown, words)?;
    let give = read_give(alloc, words)?;
    let class = read_stated(b"class", 9, 5, shown, words)? as u8;
    Ok(Command::Wait {
        student,
        want,
        give,
        class,
    })
}

/// The command after which the student waits no longer.
#[tactic(auto, unfolding(crate::specs::ReadingCommands::unwait_at))]
#[inline(never)]
fn read_unwait(alloc: Global, words: &mut Parts) -> Result<Command, Fault>
    ensures { Reads result words.new (unwait_at words.old) }
{
    let student = words.word(alloc)?;
    let ticket = words.word(alloc)?;
    Ok(Command::Unwait { student, ticket })
}

/// The command that adds an offering.
#[tactic(auto, unfolding(crate::specs::ReadingCommands::offering_command_at))]
#[inline(never)]
fn read_offering_command(alloc: Global, words: &mut Parts) -> Result<Command, Fault>
    ensures { Reads result words.new (offering_command_at words.old) }
{
    Ok(Command::Offering(read_offering(alloc, words)?))
}

/// The command that adds a student, or replaces the row of a known one.
#[tactic(auto, unfolding(crate::specs::ReadingCommands::student_command_at))]
#[inline(never)]
fn read_student_command(alloc: Global, words: &mut Parts) -> Result<Command, Fault>
    ensures { Reads result words.new (student_command_at words.old) }
{
    Ok(Command::Student(read_student(alloc, words)?))
}

/// The command that adds a reservation.
#[tactic(auto, unfolding(crate::specs::ReadingCommands::reserve_command_at))]
#[inline(never)]
fn read_reserve_command(alloc: Global, words: &mut Parts) -> Result<Command, Fault>
    ensures { Reads result words.new (reserve_command_at words.old) }
{
    Ok(Command::Reserve(read_reserve(alloc, words)?))
}

/// The command that adds a restriction.
#[tactic(auto, unfolding(crate::specs::ReadingCommands::restrict_command_at))]
#[inline(never)]
fn read_restrict_command(alloc: Global, words: &mut Parts) -> Result<Command, Fault>
    ensures { Reads result words.new (restrict_command_at words.old) }
{
    Ok(Command::Restrict(read_restrict(alloc, words)?))
}

/// The command that takes a reservation back.
#[tactic(auto, unfolding(crate::specs::ReadingCommands::unreserve_at))]
#[inline(never)]
fn read_unreserve_command(alloc: Global, words: &mut Parts) -> Result<Command, Fault>
    ensures { Reads result words.new (unreserve_at words.old) }
{
    Ok(Command::Unreserve(words.word(alloc)?))
}

/// The command that takes a restriction back.
#[tactic(auto, unfolding(crate::specs::ReadingCommands::unrestrict_at))]
#[inline(never)]
fn read_unrestrict_command(alloc: Global, words: &mut Parts) -> Result<Command, Fault>
    ensures { Reads result words.new (unrestrict_at words.old) }
{
    Ok(Command::Unrestrict(words.word(alloc)?))
}

/// The command that cancels a section.
#[tactic(auto, unfolding(crate::specs::ReadingCommands::cancel_at))]
#[inline(never)]
fn read_cancel_command(alloc: Global, words: &mut Parts) -> Result<Command, Fault>
    ensures { Reads result words.new (cancel_at words.old) }
{
    Ok(Command::Cancel(words.word(alloc)?))
}

/// The command that meets the requests of students.
#[tactic(auto, unfolding(crate::specs::ReadingCommands::batch_at))]
#[inline(never)]
fn read_batch_command(alloc: Global, words: &mut Parts) -> Result<Command, Fault>
    ensures { Reads result words.new (batch_at words.old) }
{
    Ok(Command::Batch {
        students: words.word(alloc)?,
    })
}

/// What stands behind a verb. Where `shown`, a default may be written.
pub(crate) fn read_arguments(
    alloc: Global,
    shown: bool,
    verb: Verb,
    words: &mut Parts,
) -> Result<Command, Fault>
    ensures { Reads result words.new (arguments_at shown verb words.old) }
{
    match verb {
        Verb::Offering => read_offering_command(alloc, words),
        Verb::Student => read_student_command(alloc, words),
        Verb::Requests => read_requests(alloc, words),
        Verb::Reserve => read_reserve_command(alloc, words),
        Verb::Unreserve => read_unreserve_command(alloc, words),
        Verb::Expire => read_expire(alloc, words),
        Verb::Restrict => read_restrict_command(alloc, words),
        Verb::Unrestrict => read_unrestrict_command(alloc, words),
        Verb::Limit => read_limit(alloc, words),
        Verb::Cancel => read_cancel_command(alloc, words),
        Verb::Enrol => read_enrol(alloc, shown, words),
        Verb::Drop => read_drop(alloc, words),
        Verb::Swap => read_swap(alloc, shown, words),
        Verb::Wait => read_wait(alloc, shown, words),
        Verb::Unwait => read_unwait(alloc, words),
        Verb::Batch => read_batch_command(alloc, words),
    }
}

/// A command. Where `shown`, a default may be written.
#[tactic(auto, unfolding(crate::specs::ReadingCommands::command_at))]
pub(crate) fn read_command_words(
    alloc: Global,
    shown: bool,
    words: &mut Parts,
) -> Result<Command, Fault>
    ensures { Reads result words.new (command_at shown words.old) }
{
    let Some(verb) = words.next() else {
        return Err(Fault::Bad);
    };
    let Some(verb) = verb_of(verb) else {
        return Err(Fault::Bad);
    };
    read_arguments(alloc, shown, verb, words)
}
