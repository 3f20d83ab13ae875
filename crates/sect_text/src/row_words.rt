// Printing the rows that commands carry.

ghost use Rattle.std.specs.Prelude.{◌≡◌, ◌≤◌, ◌+◌, ◌++◌, ◌∷◌, [], OnOk, drop, length, take, codes, flat_map};
ghost use Rattle.sect_words.specs.Parts.{behind};
ghost use Rattle.sect_text.specs.Commands.{
  section_words,
  subpart_words,
  config_words,
  course_words,
  group_words,
  curriculum_words,
  mark_words,
  course_ask_words,
  ask_words,
  config_id_words,
  section_id_words,
  give_words,
};

use crate::phrase::{Phrase, print_each, print_mark, print_named, print_word};
use sect_base::{ConfigId, CourseId, Curriculum, GroupId, Memory, SectionId};
use sect_catalog::{ConfigRow, CourseRow, SectionRow, SubpartRow};
use sect_people::{Ask, CourseAsk};
use sect_words::{Spelled, print_bytes, put, put_bytes, put_courses, put_marked};

impl Phrase for SectionRow {
    ghost words = { section_words };

    fn print_words(&self, into: &mut Vec<u8>) -> Result<(), Memory> {
        print_named(b"section", &self.id, into)?;
        print_word(&self.limit, into)?;
        print_word(&self.parent, into)?;
        print_word(&self.meetings, into)
    }
}

impl Phrase for SubpartRow {
    ghost words = { subpart_words };

    fn print_words(&self, into: &mut Vec<u8>) -> Result<(), Memory> {
        print_named(b"subpart", &self.id.0, into)?;
        print_each(self.sections.as_slice(), into)
    }
}

impl Phrase for ConfigRow {
    ghost words = { config_words };

    fn print_words(&self, into: &mut Vec<u8>) -> Result<(), Memory> {
        print_named(b"config", &self.id.0, into)?;
        print_word(&self.limit, into)?;
        print_each(self.subparts.as_slice(), into)
    }
}

impl Phrase for CourseRow {
    ghost words = { course_words };

    fn print_words(&self, into: &mut Vec<u8>) -> Result<(), Memory> {
        print_named(b"course", &self.id, into)?;
        print_word(&self.limit, into)?;
        print_word(&self.credits, into)
    }
}

/// All is appended in one piece.
impl Phrase for GroupId {
    ghost words = { group_words };

    fn print_words(&self, into: &mut Vec<u8>) -> Result<(), Memory> {
        let mut bytes = [0; 24];
        let start = put_marked(b' ', self.0, &mut bytes, 24);
        let start = put_bytes(b" group", &mut bytes, start);
        print_bytes(&bytes[start..], into)
    }
}

impl Phrase for Curriculum {
    ghost words = { curriculum_words };

    fn print_words(&self, into: &mut Vec<u8>) -> Result<(), Memory> {
        self.print_named(b" curriculum", b' ', into)
    }
}

/// Writes a space and the word before a place, where the mark holds, and returns where they start.
#[inline(always)]
fn put_mark(word: &[u8], holds: bool, bytes: &mut [u8], end: usize) -> usize
    requires { (length word.now + 1 ≤ end) × (end ≤ length bytes.old) }
    ensures start { (end ≤ result + length word.now + 1) × (result ≤ end) }
    ensures written { drop result bytes.new ≡ behind 32 (mark_words word.now holds) ++ drop end bytes.old }
    ensures long { length bytes.new ≡ length bytes.old }
{
    if !holds {
        return end;
    }
    let start = put_bytes(word, bytes, end);
    put(b' ', bytes, start)
}

/// Writes a request for a course and others behind it, four at most, at the end of the bytes, and returns where it starts.
#[inline(always)]
fn put_course_ask(
    ask: &CourseAsk,
    first: CourseId,
    others: &[CourseId],
    bytes: &mut [u8; 72],
) -> usize
    requires few { length others.now ≤ 3 }
    requires all { ask.now.courses ≡ first ∷ others.now }
    ensures start { result ≤ 72 }
    ensures written { drop result bytes.new ≡ behind 32 (course_ask_words ask.now) }
{
    let start = put_mark(b"substitute", ask.substitute, bytes, 72);
    let start = put_mark(b"wait", ask.wait, bytes, start);
    let start = put_courses(b'+', others, bytes, start);
    let start = put_marked(b' ', first.0, bytes, start);
    put_bytes(b" course", bytes, start)
}

/// A request for any courses, in some pieces.
fn print_course_ask(ask: &CourseAsk, into: &mut Vec<u8>) -> Result<(), Memory>
    ensures text { OnOk result (into.new.items ≡ into.old.items ++ behind 32 (course_ask_words ask.now)) }
    ensures front { take (length into.old.items) into.new.items ≡ into.old.items }
{
    print_named(b"course", &ask.courses, into)?;
    print_mark(b"wait", ask.wait, into)?;
    print_mark(b"substitute", ask.substitute, into)
}

/// One for few courses is appended in one piece.
impl Phrase for CourseAsk {
    ghost words = { course_ask_words };

    fn print_words(&self, into: &mut Vec<u8>) -> Result<(), Memory> {
        match self.courses.as_slice() {
            [first, others @ ..] if others.len() < 4 => {
                let mut bytes = [0; 72];
                let start = put_course_ask(self, *first, others, &mut bytes);
                print_bytes(&bytes[start..], into)
            }
            _ => print_course_ask(self, into),
        }
    }
}

impl Phrase for Ask {
    ghost words = { ask_words };

    fn print_words(&self, into: &mut Vec<u8>) -> Result<(), Memory> {
        match self {
            Ask::Course(ask) => ask.print_words(into),
            Ask::Free(meeting) => print_named(b"free", meeting, into),
        }
    }
}

impl Phrase for ConfigId {
    ghost words = { config_id_words };

    fn print_words(&self, into: &mut Vec<u8>) -> Result<(), Memory> {
        print_named(b"config", &self.0, into)
    }
}

impl Phrase for SectionId {
    ghost words = { section_id_words };

    fn print_words(&self, into: &mut Vec<u8>) -> Result<(), Memory> {
        print_named(b"section", self, into)
    }
}

impl Phrase for CourseId {
    ghost words = { give_words };

    fn print_words(&self, into: &mut Vec<u8>) -> Result<(), Memory> {
        print_named(b"give", self, into)
    }
}
