// Reading wants, and what may be left out of a command.

ghost use Rattle.std.specs.Prelude.{◌≡◌, ◌≤◌, ◌<◌, ℕ, List, IfOk, length, codes};
ghost use Rattle.sect_words.specs.Reading.{Reads};
ghost use Rattle.sect_read.specs.ReadingCommands.{
  stated_at,
  only_at,
  want_at,
  take_starts,
  take_at,
  optional_give_at,
  budget_at,
};

use crate::read_phrase::ReadPhrase;
use sect_base::{Budget, CourseId, Items, SectionId, Want};
use sect_words::{Fault, Parts};
use std::alloc::Global;

/// A number from 1 to `most` behind its key, or the default where the key isn't there.
#[tactic(auto, unfolding(crate::specs::ReadingCommands::stated_at))]
#[inline(always)]
pub(crate) fn read_stated(
    key: &[u8],
    most: u32,
    default: u32,
    shown: bool,
    words: &mut Parts,
) -> Result<u32, Fault>
    requires low { 0 < default }
    requires high { default ≤ most }
    ensures range { IfOk result (λ n. (0 < n) × (n ≤ most)) }
    ensures reads { Reads result words.new (stated_at key.now most default shown words.old) }
    ensures longest { IfOk result (λ _. length words.new ≤ length words.old) }
{
    if !words.takes(key) {
        return Ok(default);
    }
    let number = words.between(1, most)?;
    if !shown && number == default {
        return Err(Fault::Bad);
    }
    Ok(number)
}

/// The only sections that are wanted, or none where they aren't named.
#[tactic(auto, unfolding(crate::specs::ReadingCommands::only_at))]
fn read_only(alloc: Global, shown: bool, words: &mut Parts) -> Result<Items<SectionId>, Fault>
    ensures reads { Reads result words.new (only_at shown words.old) }
    ensures longest { IfOk result (λ _. length words.new ≤ length words.old) }
{
    if !words.takes(b"only") {
        return Ok(Items::from_vec(Vec::new(alloc)));
    }
    let sections: Items<SectionId> = words.word(alloc)?;
    if !shown && sections.is_empty() {
        return Err(Fault::Bad);
    }
    Ok(sections)
}

/// The courses that are wanted, the only sections for them, and the rank.
#[tactic(auto, unfolding(crate::specs::ReadingCommands::want_at))]
pub(crate) fn read_want(alloc: Global, shown: bool, words: &mut Parts) -> Result<Want, Fault>
    ensures reads { Reads result words.new (want_at shown words.old) }
    ensures shorter { IfOk result (λ _. length words.new < length words.old) }
{
    let courses = words.word(alloc)?;
    let only = read_only(alloc, shown, words)?;
    let rank = read_stated(b"rank", 21, 21, shown, words)? as u8;
    Ok(Want {
        courses,
        only,
        rank,
    })
}

#[tactic(auto, unfolding(crate::specs::ReadingCommands::take_at))]
impl ReadPhrase for Want {
    ghost starts = { take_starts };

    ghost at = { take_at };

    fn starts(words: &Parts) -> bool {
        words.begins(b"take")
    }

    fn read(alloc: Global, shown: bool, words: &mut Parts) -> Result<Want, Fault> {
        words.key(b"take")?;
        read_want(alloc, shown, words)
    }
}

/// The course that is given up, where there is one.
#[tactic(auto, unfolding(crate::specs::ReadingCommands::optional_give_at))]
pub(crate) fn read_give(alloc: Global, words: &mut Parts) -> Result<Option<CourseId>, Fault>
    ensures { Reads result words.new (optional_give_at words.old) }
{
    if !CourseId::starts(words) {
        return Ok(None);
    }
    Ok(Some(CourseId::read(alloc, false, words)?))
}

/// The budget, or the default where it isn't named.
pub(crate) fn read_budget(shown: bool, words: &mut Parts) -> Result<Budget, Fault>
    ensures { Reads result words.new (budget_at shown words.old) }
{
    match Budget::new(read_stated(b"budget", 20_000, 2000, shown, words)?) {
        Some(budget) => Ok(budget),
        None => unreachable!(),
    }
}
