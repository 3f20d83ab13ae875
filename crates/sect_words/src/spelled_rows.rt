// What is printed in one word with marks in it.

ghost use Rattle.std.specs.Prelude.{◌≡◌, ◌≤◌, ◌+◌, ◌*◌, ◌++◌, ◌∷◌, [], OnOk, decimal, drop, length, map, take, codes};
ghost use Rattle.sect_words.specs.Parts.{behind};
ghost use Rattle.sect_words.specs.Words.{
  course_row_text,
  curriculum_text,
  curriculum_front,
  first_major_text,
  audience_text,
  choice_text,
  sections_text,
  reservation_text,
  optional_text,
};

use crate::digits::{put, put_each, put_marked, put_number};
use crate::printing::{print_behind_name, print_bytes};
use crate::spelled::{Spelled, print_marked};
use crate::spelled_lists::print_behind;
use sect_base::{
    AreaId, Choice, ClassId, Curriculum, Items, MajorId, Memory, ReservationId, SectionId,
};
use sect_catalog::CourseRow;
use sect_reserve::{Audience, Place};

/// The section of the place.
impl Spelled for Place {
    ghost spelling = { λ place. decimal place.section.0 };

    fn print(&self, into: &mut Vec<u8>) -> Result<(), Memory> {
        self.section.print(into)
    }
}

impl Spelled for CourseRow {
    ghost spelling = { course_row_text };

    fn print(&self, into: &mut Vec<u8>) -> Result<(), Memory> {
        self.id.print(into)?;
        print_marked(b':', &self.limit, into)?;
        print_marked(b':', &self.credits, into)
    }
}

/// Writes the mark and the first major, or a dash, before a place, and returns where they start.
fn put_first_major(mark: u8, majors: &[MajorId], bytes: &mut [u8], end: usize) -> usize
    requires { (11 ≤ end) × (end ≤ length bytes.old) }
    ensures start { (end ≤ result + 11) × (result ≤ end) }
    ensures written { drop result bytes.new ≡ (mark ∷ first_major_text majors.now) ++ drop end bytes.old }
    ensures long { length bytes.new ≡ length bytes.old }
{
    match majors {
        [] => {
            let dash = put(b'-', bytes, end);
            put(mark, bytes, dash)
        }
        [first, ..] => put_marked(mark, first.0, bytes, end),
    }
}

/// Writes a curriculum up to its first major at the end of the bytes, and returns where it starts.
#[inline(always)]
fn put_curriculum_front(curriculum: &Curriculum, bytes: &mut [u8; 64]) -> usize
    ensures start { (17 ≤ result) × (result ≤ 64) }
    ensures written { drop result bytes.new ≡ curriculum_front curriculum.now }
{
    let start = put_first_major(b':', curriculum.majors.as_slice(), bytes, 64);
    let start = put_marked(b':', curriculum.class.0, bytes, start);
    put_number(curriculum.area.0, bytes, start)
}

/// Appends the elements behind the first, each behind `+`. After `Memory` a part of them may stand at the end.
fn print_later<T: Spelled>(items: &[T], into: &mut Vec<u8>) -> Result<(), Memory>
    ensures text { OnOk result (into.new.items ≡ into.old.items ++ behind 43 (map T.spelling (drop 1 items.now))) }
    ensures front { take (length into.old.items) into.new.items ≡ into.old.items }
{
    match items {
        [] => Ok(()),
        [_, rest @ ..] => print_behind(b'+', rest, into),
    }
}

/// All up to the first major is appended in one piece.
impl Spelled for Curriculum {
    ghost spelling = { curriculum_text };

    fn print(&self, into: &mut Vec<u8>) -> Result<(), Memory> {
        let mut bytes = [0; 64];
        let start = put_curriculum_front(self, &mut bytes);
        print_bytes(&bytes[start..], into)?;
        print_later(self.majors.as_slice(), into)
    }

    #[inline(always)]
    fn print_named(&self, name: &[u8], mark: u8, into: &mut Vec<u8>) -> Result<(), Memory> {
        let mut bytes = [0; 64];
        let start = put_curriculum_front(self, &mut bytes);
        let start = put(mark, &mut bytes, start);
        print_behind_name(name, &mut bytes, start, into)?;
        print_later(self.majors.as_slice(), into)
    }
}

/// The students of an area, with one of the classes and of the majors.
fn print_study(
    area: AreaId,
    classes: &Items<ClassId>,
    majors: &Items<MajorId>,
    into: &mut Vec<u8>,
) -> Result<(), Memory>
    ensures text { OnOk result (into.new.items ≡ into.old.items ++ audience_text (Audience.Curriculum area classes.now majors.now)) }
    ensures front { take (length into.old.items) into.new.items ≡ into.old.items }
{
    print_bytes(b"curriculum", into)?;
    print_marked(b':', &area.0, into)?;
    print_marked(b':', classes, into)?;
    print_marked(b':', majors, into)
}

impl Spelled for Audience {
    ghost spelling = { audience_text };

    fn print(&self, into: &mut Vec<u8>) -> Result<(), Memory> {
        match self {
            Audience::Students(ids) => {
                print_bytes(b"students", into)?;
                print_marked(b':', ids, into)
            }
            Audience::Group(id) => {
                print_bytes(b"group", into)?;
                print_marked(b':', &id.0, into)
            }
            Audience::Curriculum {
                area,
                classes,
                majors,
            } => print_study(*area, classes, majors, into),
            Audience::Course(id) => {
                print_bytes(b"course", into)?;
                print_marked(b':', &id.0, into)
            }
        }
    }
}

/// Writes the mark and a reservation's number, or a dash, before a place, and returns where they start.
fn put_reservation(
    mark: u8,
    reservation: Option<ReservationId>,
    bytes: &mut [u8],
    end: usize,
) -> usize
    requires { (11 ≤ end) × (end ≤ length bytes.old) }
    ensures start { (end ≤ result + 11) × (result ≤ end) }
    ensures written { drop result bytes.new ≡ (mark ∷ optional_text reservation_text reservation) ++ drop end bytes.old }
    ensures long { length bytes.new ≡ length bytes.old }
{
    match reservation {
        Some(id) => put_marked(mark, id.0, bytes, end),
        None => {
            let dash = put(b'-', bytes, end);
            put(mark, bytes, dash)
        }
    }
}

/// Writes the mark and the numbers of sections with `+` between each two before a place, and returns where they start.
fn put_joined(mark: u8, sections: &[SectionId], bytes: &mut [u8], end: usize) -> usize
    requires { (11 * length sections.now + 1 ≤ end) × (end ≤ length bytes.old) }
    ensures start { (end ≤ result + 11 * length sections.now + 1) × (result ≤ end) }
    ensures written { drop result bytes.new ≡ (mark ∷ sections_text sections.now) ++ drop end bytes.old }
    ensures long { length bytes.new ≡ length bytes.old }
{
    match sections {
        [] => put(mark, bytes, end),
        [first, rest @ ..] => {
            let start = put_each(b'+', rest, bytes, end);
            put_marked(mark, first.0, bytes, start)
        }
    }
}

/// Writes a choice before a place, and returns where it starts.
pub fn put_choice(choice: &Choice, bytes: &mut [u8], end: usize) -> usize
    requires { (100 ≤ end) × (end ≤ length bytes.old) }
    ensures start { (end ≤ result + 100) × (result ≤ end) }
    ensures written { drop result bytes.new ≡ choice_text choice.now ++ drop end bytes.old }
    ensures long { length bytes.new ≡ length bytes.old }
{
    // Its contract tells that they are six at most.
    let _ = choice.sections.len();
    let start = put_joined(b'/', choice.sections.as_slice(), bytes, end);
    let start = put_marked(b'/', choice.config.0, bytes, start);
    let start = put_reservation(b'/', choice.reservation, bytes, start);
    put_number(choice.course.0, bytes, start)
}

/// It is appended in one piece.
impl Spelled for Choice {
    ghost spelling = { choice_text };

    fn print(&self, into: &mut Vec<u8>) -> Result<(), Memory> {
        let mut bytes = [0; 112];
        let start = put_choice(self, &mut bytes, 112);
        print_bytes(&bytes[start..], into)
    }

    #[inline(always)]
    fn print_named(&self, name: &[u8], mark: u8, into: &mut Vec<u8>) -> Result<(), Memory> {
        let mut bytes = [0; 128];
        let start = put_choice(self, &mut bytes, 128);
        let start = put(mark, &mut bytes, start);
        print_behind_name(name, &mut bytes, start, into)
    }
}
