// Reading words that have parts of their own.

ghost use Rattle.std.specs.Prelude.{◌≡◌, ◌<◌, ℕ, List, IfOk, length, codes};
ghost use Rattle.sect_words.specs.Parts.{pieces};
ghost use Rattle.sect_words.specs.Reading.{Reads, Means, whole};
ghost use Rattle.sect_words.specs.ReadingWords.{
  course_parts_at,
  course_row_of,
  curriculum_at,
  curriculum_of,
  students_at,
  group_audience_at,
  study_at,
  course_audience_at,
  audience_at,
  audience_of,
  choice_at,
  choice_of,
};

use crate::fault::Fault;
use crate::parts::Parts;
use crate::readable::Readable;
use sect_base::{Choice, Curriculum};
use sect_catalog::CourseRow;
use sect_reserve::Audience;
use std::alloc::Global;

/// A course of an offering: its id, its limit and its credits.
#[tactic(auto, unfolding(crate::specs::ReadingWords::course_parts_at))]
fn read_course_row(alloc: Global, parts: &mut Parts) -> Result<CourseRow, Fault>
    ensures { Reads result parts.new (course_parts_at parts.old) }
{
    let id = parts.word(alloc)?;
    let limit = parts.word(alloc)?;
    let credits = parts.between(0, 30)? as u8;
    Ok(CourseRow { id, limit, credits })
}

impl Readable for CourseRow {
    ghost reads = { course_row_of };

    fn read(alloc: Global, word: &[u8]) -> Result<CourseRow, Fault> {
        let mut parts = Parts::new(word, b':');
        let course = read_course_row(alloc, &mut parts)?;
        parts.end()?;
        Ok(course)
    }
}

/// A curriculum: its area, its class and its majors.
#[tactic(auto, unfolding(crate::specs::ReadingWords::curriculum_at))]
fn read_curriculum(alloc: Global, parts: &mut Parts) -> Result<Curriculum, Fault>
    ensures { Reads result parts.new (curriculum_at parts.old) }
{
    let area = parts.word(alloc)?;
    let class = parts.word(alloc)?;
    let majors = parts.word(alloc)?;
    Ok(Curriculum {
        area,
        class,
        majors,
    })
}

impl Readable for Curriculum {
    ghost reads = { curriculum_of };

    fn read(alloc: Global, word: &[u8]) -> Result<Curriculum, Fault> {
        let mut parts = Parts::new(word, b':');
        let curriculum = read_curriculum(alloc, &mut parts)?;
        parts.end()?;
        Ok(curriculum)
    }
}

/// The audience of the students that are listed.
#[tactic(auto, unfolding(crate::specs::ReadingWords::students_at))]
fn read_students(alloc: Global, parts: &mut Parts) -> Result<Audience, Fault>
    ensures { Reads result parts.new (students_at parts.old) }
{
    Ok(Audience::Students(parts.word(alloc)?))
}

/// The audience of a group.
#[tactic(auto, unfolding(crate::specs::ReadingWords::group_audience_at))]
fn read_group(alloc: Global, parts: &mut Parts) -> Result<Audience, Fault>
    ensures { Reads result parts.new (group_audience_at parts.old) }
{
    Ok(Audience::Group(parts.word(alloc)?))
}

/// The audience of an area, with its classes and its majors.
#[tactic(auto, unfolding(crate::specs::ReadingWords::study_at))]
fn read_study(alloc: Global, parts: &mut Parts) -> Result<Audience, Fault>
    ensures { Reads result parts.new (study_at parts.old) }
{
    let area = parts.word(alloc)?;
    let classes = parts.word(alloc)?;
    let majors = parts.word(alloc)?;
    Ok(Audience::Curriculum {
        area,
        classes,
        majors,
    })
}

/// The audience of a course.
#[tactic(auto, unfolding(crate::specs::ReadingWords::course_audience_at))]
fn read_course(alloc: Global, parts: &mut Parts) -> Result<Audience, Fault>
    ensures { Reads result parts.new (course_audience_at parts.old) }
{
    Ok(Audience::Course(parts.word(alloc)?))
}

/// An audience, behind the word for its kind.
#[tactic(auto, unfolding(crate::specs::ReadingWords::audience_at))]
fn read_audience(alloc: Global, parts: &mut Parts) -> Result<Audience, Fault>
    ensures { Reads result parts.new (audience_at parts.old) }
{
    if parts.takes(b"students") {
        return read_students(alloc, parts);
    }
    if parts.takes(b"group") {
        return read_group(alloc, parts);
    }
    if parts.takes(b"curriculum") {
        return read_study(alloc, parts);
    }
    if parts.takes(b"course") {
        return read_course(alloc, parts);
    }
    Err(Fault::Bad)
}

impl Readable for Audience {
    ghost reads = { audience_of };

    fn read(alloc: Global, word: &[u8]) -> Result<Audience, Fault> {
        let mut parts = Parts::new(word, b':');
        let audience = read_audience(alloc, &mut parts)?;
        parts.end()?;
        Ok(audience)
    }
}

/// A choice: its course, its reservation, its configuration and its sections.
#[tactic(auto, unfolding(crate::specs::ReadingWords::choice_at))]
fn read_choice(alloc: Global, parts: &mut Parts) -> Result<Choice, Fault>
    ensures { Reads result parts.new (choice_at parts.old) }
{
    let course = parts.word(alloc)?;
    let reservation = parts.word(alloc)?;
    let config = parts.word(alloc)?;
    let sections = parts.word(alloc)?;
    Ok(Choice {
        course,
        reservation,
        config,
        sections,
    })
}

impl Readable for Choice {
    ghost reads = { choice_of };

    fn read(alloc: Global, word: &[u8]) -> Result<Choice, Fault> {
        let mut parts = Parts::new(word, b'/');
        let choice = read_choice(alloc, &mut parts)?;
        parts.end()?;
        Ok(choice)
    }
}
