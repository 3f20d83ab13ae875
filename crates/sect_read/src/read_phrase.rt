// Reading what stands in several words, one value behind another.

ghost use Rattle.std.specs.Prelude.{◌≡◌, ◌<◌, ◌≤◌, ◌++◌, ◌∷◌, [], ℕ, Bool, List, Option, IfOk, IfErr, length, codes, if◌then◌else◌};
ghost use Rattle.sect_words.specs.Reading.{Reads, each_at, begins, mark_at};
ghost use Rattle.sect_words.specs.ReadingWords.{choice_of};
ghost use Rattle.sect_read.specs.ReadingRows.{
  section_starts,
  section_row_at,
  subpart_starts,
  subpart_at,
  config_starts,
  config_row_at,
  course_starts,
  course_row_at,
  group_starts,
  group_at,
  curriculum_starts,
  curriculum_word_at,
  course_ask_at,
  free_ask_at,
  ask_starts,
  ask_at,
  config_id_at,
  section_id_at,
  give_starts,
  give_at,
};

use sect_base::{ConfigId, CourseId, Curriculum, GroupId, Items, Memory, SectionId};
use sect_catalog::{ConfigRow, CourseRow, SectionRow, SubpartRow};
use sect_people::{Ask, CourseAsk};
use sect_words::{Fault, Parts};
use std::alloc::Global;

/// A value that is read from several words. Where `shown`, a default may be written.
pub(crate) trait ReadPhrase: Drop {
    // Whether such a value starts.
    ghost starts: { List (List ℕ) → Bool };

    // The value in front of the words, where there is one, and the words behind it.
    ghost at: { Bool → List (List ℕ) → Option (Self × List (List ℕ)) };

    /// Whether such a value starts.
    fn starts(words: &Parts) -> bool
        ensures { result ≡ starts words.now };

    /// How many values a list has room for as soon as it has one.
    fn room() -> usize {
        4
    }

    /// The value in front of the words, which is taken.
    fn read(alloc: Global, shown: bool, words: &mut Parts) -> Result<Self, Fault>
        ensures reads { Reads result words.new (at shown words.old) }
        ensures shorter { IfOk result (λ _. length words.new < length words.old) };
}

/// Puts a value behind others. The first of them makes room for so many.
#[inline(always)]
fn push_with_room<T: Drop>(room: usize, item: T, items: &mut Vec<T>) -> Result<(), Fault>
    ensures items { IfOk result (λ _. items.new.items ≡ items.old.items ++ item ∷ []) }
    ensures memory { IfErr result (λ fault. fault ≡ Fault.Memory) }
{
    if items.is_empty() {
        items.reserve(room)?;
    }
    items.push(item)?;
    Ok(())
}

/// The values in a row, as long as another one starts.
pub(crate) fn read_each<T: ReadPhrase>(
    alloc: Global,
    shown: bool,
    words: &mut Parts,
) -> Result<Items<T>, Fault>
    ensures reads { Reads result words.new (each_at T.starts (T.at shown) words.old) }
    ensures longest { IfOk result (λ _. length words.new ≤ length words.old) }
{
    let mut items = Vec::new(alloc);
    while T::starts(words) {
        let item = T::read(alloc, shown, words)?;
        push_with_room(T::room(), item, &mut items)?;
    }
    Ok(Items::from_vec(items))
}

#[tactic(auto, unfolding(crate::specs::ReadingRows::section_row_at))]
impl ReadPhrase for SectionRow {
    ghost starts = { section_starts };

    ghost at = { λ _. section_row_at };

    fn starts(words: &Parts) -> bool {
        words.begins(b"section")
    }

    fn read(alloc: Global, _shown: bool, words: &mut Parts) -> Result<SectionRow, Fault> {
        words.key(b"section")?;
        let id = words.word(alloc)?;
        let limit = words.word(alloc)?;
        let parent = words.word(alloc)?;
        let meetings = words.word(alloc)?;
        Ok(SectionRow {
            id,
            limit,
            parent,
            meetings,
        })
    }
}

#[tactic(auto, unfolding(crate::specs::ReadingRows::subpart_at))]
impl ReadPhrase for SubpartRow {
    ghost starts = { subpart_starts };

    ghost at = { λ _. subpart_at };

    fn starts(words: &Parts) -> bool {
        words.begins(b"subpart")
    }

    fn read(alloc: Global, _shown: bool, words: &mut Parts) -> Result<SubpartRow, Fault> {
        words.key(b"subpart")?;
        let id = words.word(alloc)?;
        let sections = read_each(alloc, false, words)?;
        Ok(SubpartRow { id, sections })
    }
}

#[tactic(auto, unfolding(crate::specs::ReadingRows::config_row_at))]
impl ReadPhrase for ConfigRow {
    ghost starts = { config_starts };

    ghost at = { λ _. config_row_at };

    fn starts(words: &Parts) -> bool {
        words.begins(b"config")
    }

    fn read(alloc: Global, _shown: bool, words: &mut Parts) -> Result<ConfigRow, Fault> {
        words.key(b"config")?;
        let id = words.word(alloc)?;
        let limit = words.word(alloc)?;
        let subparts = read_each(alloc, false, words)?;
        Ok(ConfigRow {
            id,
            limit,
            subparts,
        })
    }
}

#[tactic(auto, unfolding(crate::specs::ReadingRows::course_row_at))]
impl ReadPhrase for CourseRow {
    ghost starts = { course_starts };

    ghost at = { λ _. course_row_at };

    fn starts(words: &Parts) -> bool {
        words.begins(b"course")
    }

    fn read(alloc: Global, _shown: bool, words: &mut Parts) -> Result<CourseRow, Fault> {
        words.key(b"course")?;
        let id = words.word(alloc)?;
        let limit = words.word(alloc)?;
        let credits = words.between(0, 30)? as u8;
        Ok(CourseRow { id, limit, credits })
    }
}

#[tactic(auto, unfolding(crate::specs::ReadingRows::group_at))]
impl ReadPhrase for GroupId {
    ghost starts = { group_starts };

    ghost at = { λ _. group_at };

    fn starts(words: &Parts) -> bool {
        words.begins(b"group")
    }

    fn read(alloc: Global, _shown: bool, words: &mut Parts) -> Result<GroupId, Fault> {
        words.key(b"group")?;
        words.word(alloc)
    }
}

#[tactic(auto, unfolding(crate::specs::ReadingRows::curriculum_word_at))]
impl ReadPhrase for Curriculum {
    ghost starts = { curriculum_starts };

    ghost at = { λ _. curriculum_word_at };

    fn starts(words: &Parts) -> bool {
        words.begins(b"curriculum")
    }

    fn read(alloc: Global, _shown: bool, words: &mut Parts) -> Result<Curriculum, Fault> {
        words.key(b"curriculum")?;
        words.word(alloc)
    }
}

#[tactic(auto, unfolding(crate::specs::ReadingRows::config_id_at))]
impl ReadPhrase for ConfigId {
    ghost starts = { config_starts };

    ghost at = { λ _. config_id_at };

    fn starts(words: &Parts) -> bool {
        words.begins(b"config")
    }

    fn read(alloc: Global, _shown: bool, words: &mut Parts) -> Result<ConfigId, Fault> {
        words.key(b"config")?;
        words.word(alloc)
    }
}

#[tactic(auto, unfolding(crate::specs::ReadingRows::section_id_at))]
impl ReadPhrase for SectionId {
    ghost starts = { section_starts };

    ghost at = { λ _. section_id_at };

    fn starts(words: &Parts) -> bool {
        words.begins(b"section")
    }

    fn read(alloc: Global, _shown: bool, words: &mut Parts) -> Result<SectionId, Fault> {
        words.key(b"section")?;
        words.word(alloc)
    }
}

#[tactic(auto, unfolding(crate::specs::ReadingRows::give_at))]
impl ReadPhrase for CourseId {
    ghost starts = { give_starts };

    ghost at = { λ _. give_at };

    fn starts(words: &Parts) -> bool {
        words.begins(b"give")
    }

    fn read(alloc: Global, _shown: bool, words: &mut Parts) -> Result<CourseId, Fault> {
        words.key(b"give")?;
        words.word(alloc)
    }
}

/// A request for one of some courses, whether it may wait, and whether it is a substitute.
#[tactic(auto, unfolding(crate::specs::ReadingRows::course_ask_at))]
fn read_course_ask(alloc: Global, words: &mut Parts) -> Result<Ask, Fault>
    ensures reads { Reads result words.new (course_ask_at words.old) }
    ensures shorter { IfOk result (λ _. length words.new < length words.old) }
{
    let courses = words.word(alloc)?;
    let wait = words.takes(b"wait");
    let substitute = words.takes(b"substitute");
    Ok(Ask::Course(CourseAsk {
        courses,
        wait,
        substitute,
    }))
}

/// A request for a time without meetings.
#[tactic(auto, unfolding(crate::specs::ReadingRows::free_ask_at))]
fn read_free_ask(alloc: Global, words: &mut Parts) -> Result<Ask, Fault>
    ensures reads { Reads result words.new (free_ask_at words.old) }
    ensures shorter { IfOk result (λ _. length words.new < length words.old) }
{
    Ok(Ask::Free(words.word(alloc)?))
}

#[tactic(auto, unfolding(crate::specs::ReadingRows::ask_at))]
impl ReadPhrase for Ask {
    ghost starts = { ask_starts };

    ghost at = { λ _. ask_at };

    fn starts(words: &Parts) -> bool {
        words.begins(b"course") || words.begins(b"free")
    }

    fn room() -> usize {
        8
    }

    fn read(alloc: Global, _shown: bool, words: &mut Parts) -> Result<Ask, Fault> {
        if words.takes(b"course") {
            return read_course_ask(alloc, words);
        }
        words.key(b"free")?;
        read_free_ask(alloc, words)
    }
}
