// The groups of words in a command, each behind a key of its own.

ghost use Rattle.std.specs.Prelude.{◌≡◌, ◌<◌, ◌≤◌, ◌||◌, IfOk, codes, length};
ghost use Rattle.sect_read.specs.ReadingCommands.{take_starts};
ghost use Rattle.sect_read.specs.ReadingRows.{
  ask_starts,
  config_starts,
  course_starts,
  curriculum_starts,
  give_starts,
  group_starts,
  section_starts,
  subpart_starts,
};
ghost use Rattle.sect_check.specs.declared.form.Form.TheVariants as forms;
ghost use Rattle.sect_check.specs.Walks.{
  Walks,
  ask_walk,
  config_walk,
  course_ask_walk,
  course_walk,
  pair_walk,
  section_walk,
  subpart_walk,
  take_walk,
  want_walk,
};

use crate::form::{Form, Halt};
use crate::walk::{Group, each, mark, option, pair, word};
use sect_words::Parts;
use std::alloc::Global;

/// A section of an offering, with its data.
pub(crate) struct SectionRow;

/// A subpart of an offering.
pub(crate) struct SubpartRow;

/// A configuration of an offering.
pub(crate) struct ConfigRow;

/// A course of an offering.
pub(crate) struct CourseRow;

/// A configuration that is named.
pub(crate) struct ConfigName;

/// A section that is named.
pub(crate) struct SectionName;

/// A group of a student.
pub(crate) struct GroupName;

/// A curriculum of a student.
pub(crate) struct CurriculumName;

/// A request of a student.
pub(crate) struct Ask;

/// A course that is given up.
pub(crate) struct Give;

/// A want that is taken.
pub(crate) struct Take;

#[tactic(auto, unfolding(crate::specs::Walks::section_walk))]
impl Group for SectionRow {
    ghost starts = { section_starts };

    ghost walk = { section_walk };

    fn starts(words: &Parts) -> bool {
        words.begins(b"section")
    }

    fn pass(alloc: Global, words: &mut Parts) -> Result<(), Halt> {
        pair(alloc, Form::Id, words)?;
        word(alloc, Form::Limit, words)?;
        word(alloc, Form::OptionalId, words)?;
        word(alloc, Form::Meetings, words)
    }
}

#[tactic(auto, unfolding(crate::specs::Walks::subpart_walk))]
impl Group for SubpartRow {
    ghost starts = { subpart_starts };

    ghost walk = { subpart_walk };

    fn starts(words: &Parts) -> bool {
        words.begins(b"subpart")
    }

    fn pass(alloc: Global, words: &mut Parts) -> Result<(), Halt> {
        pair(alloc, Form::Id, words)?;
        each::<SectionRow>(alloc, words)
    }
}

#[tactic(auto, unfolding(crate::specs::Walks::config_walk))]
impl Group for ConfigRow {
    ghost starts = { config_starts };

    ghost walk = { config_walk };

    fn starts(words: &Parts) -> bool {
        words.begins(b"config")
    }

    fn pass(alloc: Global, words: &mut Parts) -> Result<(), Halt> {
        pair(alloc, Form::Id, words)?;
        word(alloc, Form::Limit, words)?;
        each::<SubpartRow>(alloc, words)
    }
}

#[tactic(auto, unfolding(crate::specs::Walks::course_walk))]
impl Group for CourseRow {
    ghost starts = { course_starts };

    ghost walk = { course_walk };

    fn starts(words: &Parts) -> bool {
        words.begins(b"course")
    }

    fn pass(alloc: Global, words: &mut Parts) -> Result<(), Halt> {
        pair(alloc, Form::Id, words)?;
        word(alloc, Form::Limit, words)?;
        word(alloc, Form::Credits, words)
    }
}

impl Group for ConfigName {
    ghost starts = { config_starts };

    ghost walk = { pair_walk forms.Id };

    fn starts(words: &Parts) -> bool {
        words.begins(b"config")
    }

    fn pass(alloc: Global, words: &mut Parts) -> Result<(), Halt> {
        pair(alloc, Form::Id, words)
    }
}

impl Group for SectionName {
    ghost starts = { section_starts };

    ghost walk = { pair_walk forms.Id };

    fn starts(words: &Parts) -> bool {
        words.begins(b"section")
    }

    fn pass(alloc: Global, words: &mut Parts) -> Result<(), Halt> {
        pair(alloc, Form::Id, words)
    }
}

impl Group for GroupName {
    ghost starts = { group_starts };

    ghost walk = { pair_walk forms.Id };

    fn starts(words: &Parts) -> bool {
        words.begins(b"group")
    }

    fn pass(alloc: Global, words: &mut Parts) -> Result<(), Halt> {
        pair(alloc, Form::Id, words)
    }
}

impl Group for CurriculumName {
    ghost starts = { curriculum_starts };

    ghost walk = { pair_walk forms.Curriculum };

    fn starts(words: &Parts) -> bool {
        words.begins(b"curriculum")
    }

    fn pass(alloc: Global, words: &mut Parts) -> Result<(), Halt> {
        pair(alloc, Form::Curriculum, words)
    }
}

impl Group for Give {
    ghost starts = { give_starts };

    ghost walk = { pair_walk forms.Id };

    fn starts(words: &Parts) -> bool {
        words.begins(b"give")
    }

    fn pass(alloc: Global, words: &mut Parts) -> Result<(), Halt> {
        pair(alloc, Form::Id, words)
    }
}

/// Passes the request for a course.
#[tactic(auto, unfolding(crate::specs::Walks::course_ask_walk))]
fn course_ask(alloc: Global, words: &mut Parts) -> Result<(), Halt>
    ensures walks { Walks result words.new (course_ask_walk words.old) }
    ensures shorter { IfOk result (λ _. length words.new < length words.old) }
{
    pair(alloc, Form::Ids, words)?;
    mark(b"wait", words);
    mark(b"substitute", words);
    Ok(())
}

#[tactic(auto, unfolding(crate::specs::Walks::ask_walk))]
impl Group for Ask {
    ghost starts = { ask_starts };

    ghost walk = { ask_walk };

    fn starts(words: &Parts) -> bool {
        words.begins(b"course") || words.begins(b"free")
    }

    fn pass(alloc: Global, words: &mut Parts) -> Result<(), Halt> {
        if words.begins(b"course") {
            course_ask(alloc, words)
        } else {
            pair(alloc, Form::Meeting, words)
        }
    }
}

/// Passes a want.
#[tactic(auto, unfolding(crate::specs::Walks::want_walk))]
pub(crate) fn want(alloc: Global, words: &mut Parts) -> Result<(), Halt>
    ensures walks { Walks result words.new (want_walk words.old) }
    ensures shorter { IfOk result (λ _. length words.new < length words.old) }
{
    word(alloc, Form::Ids, words)?;
    option(alloc, b"only", Form::Ids, words)?;
    option(alloc, b"rank", Form::UpTo(21), words)
}

impl Group for Take {
    ghost starts = { take_starts };

    ghost walk = { take_walk };

    fn starts(words: &Parts) -> bool {
        words.begins(b"take")
    }

    fn pass(alloc: Global, words: &mut Parts) -> Result<(), Halt> {
        words.take();
        want(alloc, words)
    }
}
