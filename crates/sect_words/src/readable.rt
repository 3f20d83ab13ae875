// Reading what stands in one word.

ghost use Rattle.std.specs.Prelude.{◌≡◌, ◌<◌, ◌∷◌, [], ℕ, List, Option, Some, None, IfOk, IfSome, length};
ghost use Rattle.std.specs.Option.{option_map};
ghost use Rattle.sect_words.specs.Parts.{pieces};
ghost use Rattle.sect_words.specs.Reading.{Means, Reads, all_of, word_at};
ghost use Rattle.sect_words.specs.ReadingWords.{
  u8_of,
  u16_of,
  u32_of,
  u64_of,
  day_of,
  meeting_of,
  course_of,
  list_of,
  flag_of,
  optional_of,
  limit_of,
  caller_of,
  sections_of,
  few_sections,
  tree_of_word,
};

use crate::fault::Fault;
use crate::number::read_number;
use crate::parts::Parts;
use crate::same::same_bytes;
use sect_base::{
    Alternatives, Block, Caller, CourseId, Day, Items, Limit, Meeting, SectionId, Sections,
    StudentId, read_day, read_meeting,
};
use sect_command::read_block;
use std::alloc::Global;

/// A value that is read from one word.
pub trait Readable: Drop {
    /// The value of a word, where it has one.
    ghost reads: { List ℕ → Option Self };

    /// The value of a word. `Bad` exactly where it has none, unless memory ran out.
    fn read(alloc: Global, word: &[u8]) -> Result<Self, Fault>
        ensures { Means result (reads word.now) };

    /// The value of the next part, which is taken. `Bad` exactly where it has none, unless memory ran out.
    fn read_next(alloc: Global, parts: &mut Parts) -> Result<Self, Fault>
        ensures value { Reads result parts.new (word_at reads parts.old) }
        ensures shorter { IfOk result (λ _. length parts.new < length parts.old) }
    {
        match parts.next() {
            Some(part) => Self::read(alloc, part),
            None => Err(Fault::Bad),
        }
    }

    /// The only value of a list in the next part, which is taken, where it is told to be one. None where nothing is taken.
    fn read_alone(parts: &mut Parts) -> Option<Self>
        ensures alone { IfSome result (λ item. word_at (list_of 43 reads) parts.old ≡ Some (item ∷ [], parts.new)) }
        ensures shorter { IfSome result (λ _. length parts.new < length parts.old) }
        ensures same { result ≡ None → parts.new ≡ parts.old }
    {
        None
    }
}

impl Readable for u8 {
    ghost reads = { u8_of };

    fn read(_alloc: Global, word: &[u8]) -> Result<u8, Fault> {
        Ok(read_number(word, 255)? as u8)
    }
}

impl Readable for u16 {
    ghost reads = { u16_of };

    fn read(_alloc: Global, word: &[u8]) -> Result<u16, Fault> {
        Ok(read_number(word, 65_535)? as u16)
    }
}

impl Readable for u32 {
    ghost reads = { u32_of };

    fn read(_alloc: Global, word: &[u8]) -> Result<u32, Fault> {
        Ok(read_number(word, 4_294_967_295)? as u32)
    }

    fn read_next(_alloc: Global, parts: &mut Parts) -> Result<u32, Fault> {
        parts.take_u32()
    }
}

impl Readable for u64 {
    ghost reads = { u64_of };

    fn read(_alloc: Global, word: &[u8]) -> Result<u64, Fault> {
        read_number(word, u64::MAX)
    }

    fn read_next(_alloc: Global, parts: &mut Parts) -> Result<u64, Fault> {
        parts.long()
    }
}

/// 1 for yes and 0 for no.
impl Readable for bool {
    ghost reads = { flag_of };

    fn read(_alloc: Global, word: &[u8]) -> Result<bool, Fault> {
        match word {
            [b'1'] => Ok(true),
            [b'0'] => Ok(false),
            _ => Err(Fault::Bad),
        }
    }
}

impl Readable for Day {
    ghost reads = { day_of };

    fn read(_alloc: Global, word: &[u8]) -> Result<Day, Fault> {
        match read_day(word) {
            Ok(day) => {
                prove!(day.get() >= 0);
                Ok(day)
            }
            Err(_) => Err(Fault::Bad),
        }
    }
}

impl Readable for Meeting {
    ghost reads = { meeting_of };

    fn read(_alloc: Global, word: &[u8]) -> Result<Meeting, Fault> {
        match read_meeting(word) {
            Ok(meeting) => {
                prove!(meeting.slots() > 0);
                Ok(meeting)
            }
            Err(_) => Err(Fault::Bad),
        }
    }
}

impl Readable for Block {
    ghost reads = { tree_of_word };

    fn read(alloc: Global, word: &[u8]) -> Result<Block, Fault> {
        match read_block(alloc, word)? {
            Some(tree) => Ok(tree),
            None => Err(Fault::Bad),
        }
    }
}

#[tactic(auto, unfolding(crate::specs::ReadingWords::optional_of))]
impl<T: Readable> Readable for Option<T> {
    ghost reads = { optional_of T.reads };

    fn read(alloc: Global, word: &[u8]) -> Result<Option<T>, Fault> {
        if same_bytes(word, b"-") {
            return Ok(None);
        }
        Ok(Some(T::read(alloc, word)?))
    }
}

#[tactic(auto, unfolding(crate::specs::ReadingWords::limit_of))]
impl Readable for Limit {
    ghost reads = { limit_of };

    fn read(alloc: Global, word: &[u8]) -> Result<Limit, Fault> {
        if same_bytes(word, b"-") {
            return Ok(Limit::Unlimited);
        }
        Ok(Limit::Places(u32::read(alloc, word)?))
    }
}

#[tactic(auto, unfolding(crate::specs::ReadingWords::caller_of))]
impl Readable for Caller {
    ghost reads = { caller_of };

    fn read(alloc: Global, word: &[u8]) -> Result<Caller, Fault> {
        match word {
            [b'r', number @ ..] => Ok(Caller::Registrar(u32::read(alloc, number)?)),
            [b's', number @ ..] => Ok(Caller::Student(StudentId(u32::read(alloc, number)?))),
            _ => Err(Fault::Bad),
        }
    }

    fn read_next(alloc: Global, parts: &mut Parts) -> Result<Caller, Fault> {
        if parts.strips(b's') {
            return Ok(Caller::Student(StudentId(parts.take_u32()?)));
        }
        if parts.strips(b'r') {
            return Ok(Caller::Registrar(parts.take_u32()?));
        }
        match parts.next() {
            Some(part) => Caller::read(alloc, part),
            None => Err(Fault::Bad),
        }
    }
}

/// The values of all parts of a text between marks, of which there is one at least. It takes memory.
pub fn read_all<T: Readable>(alloc: Global, word: &[u8], mark: u8) -> Result<Items<T>, Fault>
    ensures { Means result (all_of T.reads (pieces mark word.now)) }
{
    let mut parts = Parts::new(word, mark);
    let mut items = Vec::with_capacity(alloc, 4)?;
    while !parts.is_empty() {
        items.push(T::read_next(alloc, &mut parts)?)?;
    }
    Ok(Items::from_vec(items))
}

/// The values of a word's parts between marks, or none for a dash. It takes memory.
#[tactic(auto, unfolding(crate::specs::ReadingWords::list_of))]
pub fn read_list<T: Readable>(alloc: Global, word: &[u8], mark: u8) -> Result<Items<T>, Fault>
    ensures { Means result (list_of mark T.reads word.now) }
{
    if same_bytes(word, b"-") {
        return Ok(Items::from_vec(Vec::new(alloc)));
    }
    read_all(alloc, word, mark)
}

impl<T: Readable> Readable for Items<T> {
    ghost reads = { list_of 43 T.reads };

    fn read(alloc: Global, word: &[u8]) -> Result<Items<T>, Fault> {
        read_list(alloc, word, b'+')
    }

    fn read_next(alloc: Global, parts: &mut Parts) -> Result<Items<T>, Fault> {
        if let Some(item) = T::read_alone(parts) {
            let mut items = Vec::with_capacity(alloc, 4)?;
            items.push(item)?;
            return Ok(Items::from_vec(items));
        }
        match parts.next() {
            Some(part) => read_list(alloc, part, b'+'),
            None => Err(Fault::Bad),
        }
    }
}

/// The courses of all parts of a text between plus signs, of which there is one at least. It takes memory where they are more
/// than four.
fn read_courses(alloc: Global, word: &[u8]) -> Result<Alternatives, Fault>
    ensures { Means result (all_of course_of (pieces 43 word.now)) }
{
    let mut parts = Parts::new(word, b'+');
    let mut courses = Alternatives::none(alloc);
    while !parts.is_empty() {
        courses.push(CourseId::read_next(alloc, &mut parts)?)?;
    }
    Ok(courses)
}

#[tactic(auto, unfolding(crate::specs::ReadingWords::list_of))]
impl Readable for Alternatives {
    ghost reads = { list_of 43 course_of };

    fn read(alloc: Global, word: &[u8]) -> Result<Alternatives, Fault> {
        if same_bytes(word, b"-") {
            return Ok(Alternatives::none(alloc));
        }
        read_courses(alloc, word)
    }

    #[inline(always)]
    fn read_next(alloc: Global, parts: &mut Parts) -> Result<Alternatives, Fault> {
        if let Some(course) = CourseId::read_alone(parts) {
            return Ok(Alternatives::one(alloc, course));
        }
        match parts.next() {
            Some(part) => Alternatives::read(alloc, part),
            None => Err(Fault::Bad),
        }
    }
}

#[tactic(auto, unfolding(crate::specs::ReadingWords::sections_of))]
impl Readable for Sections {
    ghost reads = { sections_of };

    fn read(alloc: Global, word: &[u8]) -> Result<Sections, Fault> {
        let mut parts = Parts::new(word, b'+');
        let mut sections = Sections::empty();
        while let Some(part) = parts.next() {
            if sections.len() == 6 {
                return Err(Fault::Bad);
            }
            sections.push(SectionId::read(alloc, part)?);
        }
        Ok(sections)
    }
}
