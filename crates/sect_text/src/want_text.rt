// Printing wants, and what may be left out of a command.

ghost use Rattle.std.specs.Prelude.{◌≡◌, ◌+◌, ◌++◌, ◌∷◌, ◌≤◌, [], OnOk, drop, length, take, codes, false, decimal};
ghost use Rattle.sect_words.specs.Parts.{behind, sentence};
ghost use Rattle.sect_words.specs.Words.{list_text, course_text};
ghost use Rattle.sect_text.specs.Commands.{stated_words, only_words, printed_want, take_words};

use crate::phrase::{Phrase, print_named};
use sect_base::{Alternatives, CourseId, Items, Memory, SectionId, StudentId, Want};
use sect_words::{Spelled, print_bytes, put, put_bytes, put_courses, put_marked};

/// A key and a number, where it is not the default.
pub(crate) fn print_stated(
    key: &[u8],
    default: u32,
    number: u32,
    into: &mut Vec<u8>,
) -> Result<(), Memory>
    ensures text { OnOk result (into.new.items ≡ into.old.items ++ behind 32 (stated_words key.now default false number)) }
    ensures front { take (length into.old.items) into.new.items ≡ into.old.items }
{
    if number == default {
        return Ok(());
    }
    print_named(key, &number, into)
}

/// The only sections that are wanted, where there are some.
fn print_only(sections: &Items<SectionId>, into: &mut Vec<u8>) -> Result<(), Memory>
    ensures text { OnOk result (into.new.items ≡ into.old.items ++ behind 32 (only_words false sections.now)) }
    ensures front { take (length into.old.items) into.new.items ≡ into.old.items }
{
    if sections.is_empty() {
        return Ok(());
    }
    print_named(b"only", sections, into)
}

/// The only sections for the courses that are wanted, and the rank where it is not the default.
fn print_want_rest(want: &Want, into: &mut Vec<u8>) -> Result<(), Memory>
    ensures text { OnOk result (into.new.items ≡ into.old.items ++ behind 32 (only_words false want.now.only ++ stated_words (codes "rank") 21 false want.now.rank)) }
    ensures front { take (length into.old.items) into.new.items ≡ into.old.items }
{
    print_only(&want.only, into)?;
    print_stated(b"rank", 21, u32::from(want.rank), into)
}

impl Phrase for Want {
    ghost words = { take_words };

    fn print_words(&self, into: &mut Vec<u8>) -> Result<(), Memory> {
        print_named(b"take", &self.courses, into)?;
        print_want_rest(self, into)
    }
}

/// A verb, a student and courses, all up to the first course in one piece.
fn print_asked(
    verb: &[u8],
    student: StudentId,
    courses: &Alternatives,
    into: &mut Vec<u8>,
) -> Result<(), Memory>
    requires { length verb.now ≤ 8 }
    ensures text { OnOk result (into.new.items ≡ into.old.items ++ sentence (verb.now ∷ decimal student.0 ∷ list_text 43 course_text courses.now ∷ [])) }
    ensures front { take (length into.old.items) into.new.items ≡ into.old.items }
{
    let mut bytes = [0; 24];
    let start = put_marked(b' ', student.0, &mut bytes, 24);
    let start = put_bytes(verb, &mut bytes, start);
    courses.print_named(&bytes[start..], b' ', into)
}

/// Writes a key and a number, each behind a space, before a place, where the number is not the default, and returns where
/// they start.
#[inline(always)]
fn put_stated(key: &[u8], default: u32, number: u32, bytes: &mut [u8], end: usize) -> usize
    requires { (length key.now + 12 ≤ end) × (end ≤ length bytes.old) }
    ensures start { (end ≤ result + length key.now + 12) × (result ≤ end) }
    ensures written { drop result bytes.new ≡ behind 32 (stated_words key.now default false number) ++ drop end bytes.old }
    ensures long { length bytes.new ≡ length bytes.old }
{
    if number == default {
        return end;
    }
    let start = put_marked(b' ', number, bytes, end);
    let start = put_bytes(key, bytes, start);
    put(b' ', bytes, start)
}

/// Writes a verb, a student, three courses at most and their rank at the end of the bytes, and returns where they start.
#[inline(always)]
fn put_few(
    verb: &[u8],
    student: StudentId,
    first: CourseId,
    others: &[CourseId],
    rank: u8,
    bytes: &mut [u8; 72],
) -> usize
    requires short { length verb.now ≤ 8 }
    requires few { length others.now ≤ 2 }
    ensures start { result ≤ 72 }
    ensures written { drop result bytes.new ≡ sentence (verb.now ∷ decimal student.0 ∷ list_text 43 course_text (first ∷ others.now) ∷ stated_words (codes "rank") 21 false rank) }
{
    let start = put_stated(b"rank", 21, u32::from(rank), bytes, 72);
    let start = put_courses(b'+', others, bytes, start);
    let start = put_marked(b' ', first.0, bytes, start);
    let start = put_marked(b' ', student.0, bytes, start);
    put_bytes(verb, bytes, start)
}

/// A verb, a student and what is wanted, in one piece where these are few courses and any of their sections.
#[inline(always)]
pub(crate) fn print_wanted(
    verb: &[u8],
    student: StudentId,
    want: &Want,
    into: &mut Vec<u8>,
) -> Result<(), Memory>
    requires { length verb.now ≤ 8 }
    ensures text { OnOk result (into.new.items ≡ into.old.items ++ sentence (verb.now ∷ decimal student.0 ∷ printed_want want.now)) }
    ensures front { take (length into.old.items) into.new.items ≡ into.old.items }
{
    match want.courses.as_slice() {
        [first, others @ ..] if others.len() < 3 && want.only.is_empty() => {
            let mut bytes = [0; 72];
            let start = put_few(verb, student, *first, others, want.rank, &mut bytes);
            print_bytes(&bytes[start..], into)
        }
        _ => {
            print_asked(verb, student, &want.courses, into)?;
            print_want_rest(want, into)
        }
    }
}
