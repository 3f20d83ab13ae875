// Reading the rows and levels that commands carry.

ghost use Rattle.std.specs.Prelude.{◌≡◌, codes};
ghost use Rattle.sect_words.specs.Reading.{Reads};
ghost use Rattle.sect_read.specs.ReadingRows.{offering_at, student_row_at};
ghost use Rattle.sect_read.specs.ReadingCommands.{
  from_at,
  reserve_at,
  restrict_at,
  course_cap_at,
  config_cap_at,
  section_cap_at,
  cap_at,
};

use crate::read_phrase::read_each;
use sect_base::{Cap, Day};
use sect_catalog::OfferingRow;
use sect_command::{ReserveRow, RestrictRow};
use sect_people::StudentRow;
use sect_words::{Fault, Parts};
use std::alloc::Global;

/// The row of an offering, with its courses and its configurations.
#[tactic(auto, unfolding(crate::specs::ReadingRows::offering_at))]
pub(crate) fn read_offering(alloc: Global, words: &mut Parts) -> Result<OfferingRow, Fault>
    ensures { Reads result words.new (offering_at words.old) }
{
    let id = words.word(alloc)?;
    let courses = read_each(alloc, false, words)?;
    let configs = read_each(alloc, false, words)?;
    Ok(OfferingRow {
        id,
        courses,
        configs,
    })
}

/// The row of a student, with its groups and its curricula.
#[tactic(auto, unfolding(crate::specs::ReadingRows::student_row_at))]
pub(crate) fn read_student(alloc: Global, words: &mut Parts) -> Result<StudentRow, Fault>
    ensures { Reads result words.new (student_row_at words.old) }
{
    let id = words.word(alloc)?;
    words.key(b"max")?;
    let max_credits = words.word(alloc)?;
    let groups = read_each(alloc, false, words)?;
    let curricula = read_each(alloc, false, words)?;
    Ok(StudentRow {
        id,
        max_credits,
        groups,
        curricula,
    })
}

/// The first day, where one is named.
#[tactic(auto, unfolding(crate::specs::ReadingCommands::from_at))]
fn read_from(alloc: Global, words: &mut Parts) -> Result<Option<Day>, Fault>
    ensures { Reads result words.new (from_at words.old) }
{
    if !words.takes(b"from") {
        return Ok(None);
    }
    Ok(Some(words.word(alloc)?))
}

/// The row of a reservation.
#[tactic(auto, unfolding(crate::specs::ReadingCommands::reserve_at))]
pub(crate) fn read_reserve(alloc: Global, words: &mut Parts) -> Result<ReserveRow, Fault>
    ensures { Reads result words.new (reserve_at words.old) }
{
    let id = words.word(alloc)?;
    let offering = words.word(alloc)?;
    let audience = words.word(alloc)?;
    let limit = words.word(alloc)?;
    let expiry = words.word(alloc)?;
    let first = read_from(alloc, words)?;
    let configs = read_each(alloc, false, words)?;
    let sections = read_each(alloc, false, words)?;
    let over = words.takes(b"over");
    let overlap = words.takes(b"overlap");
    let must = words.takes(b"must");
    Ok(ReserveRow {
        id,
        offering,
        audience,
        limit,
        first,
        expiry,
        configs,
        sections,
        over,
        overlap,
        must,
    })
}

/// The row of a restriction.
#[tactic(auto, unfolding(crate::specs::ReadingCommands::restrict_at))]
pub(crate) fn read_restrict(alloc: Global, words: &mut Parts) -> Result<RestrictRow, Fault>
    ensures { Reads result words.new (restrict_at words.old) }
{
    let id = words.word(alloc)?;
    let offering = words.word(alloc)?;
    let audience = words.word(alloc)?;
    let configs = read_each(alloc, false, words)?;
    let sections = read_each(alloc, false, words)?;
    Ok(RestrictRow {
        id,
        offering,
        audience,
        configs,
        sections,
    })
}

/// The id of a course, as a level.
#[tactic(auto, unfolding(crate::specs::ReadingCommands::course_cap_at))]
fn read_course_cap(alloc: Global, words: &mut Parts) -> Result<Cap, Fault>
    ensures { Reads result words.new (course_cap_at words.old) }
{
    Ok(Cap::Course(words.word(alloc)?))
}

/// The id of a configuration, as a level.
#[tactic(auto, unfolding(crate::specs::ReadingCommands::config_cap_at))]
fn read_config_cap(alloc: Global, words: &mut Parts) -> Result<Cap, Fault>
    ensures { Reads result words.new (config_cap_at words.old) }
{
    Ok(Cap::Config(words.word(alloc)?))
}

/// The id of a section, as a level.
#[tactic(auto, unfolding(crate::specs::ReadingCommands::section_cap_at))]
fn read_section_cap(alloc: Global, words: &mut Parts) -> Result<Cap, Fault>
    ensures { Reads result words.new (section_cap_at words.old) }
{
    Ok(Cap::Section(words.word(alloc)?))
}

/// A level and its id.
#[tactic(auto, unfolding(crate::specs::ReadingCommands::cap_at))]
pub(crate) fn read_cap(alloc: Global, words: &mut Parts) -> Result<Cap, Fault>
    ensures { Reads result words.new (cap_at words.old) }
{
    if words.takes(b"course") {
        return read_course_cap(alloc, words);
    }
    if words.takes(b"config") {
        return read_config_cap(alloc, words);
    }
    if words.takes(b"section") {
        return read_section_cap(alloc, words);
    }
    Err(Fault::Bad)
}
