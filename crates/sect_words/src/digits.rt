// What is written from the last byte to the first into bytes on the stack, so that it is appended in one piece.

ghost use Rattle.std.specs.Prelude.{◌≡◌, ℕ, ◌+◌, ◌*◌, ◌≤◌, ◌∷◌, ◌++◌, decimal, length, drop, map};
ghost use Rattle.sect_words.specs.Days.{day_text};
ghost use Rattle.sect_words.specs.Parts.{behind};
ghost use Rattle.sect_words.specs.Words.{caller_text, course_text};

use itoa::write_digits;
use sect_base::{Caller, CourseId, Day, SectionId, print_day};

/// Writes the byte before a place, and returns where it stands.
pub fn put(byte: u8, bytes: &mut [u8], end: usize) -> usize
    requires { (1 ≤ end) × (end ≤ length bytes.old) }
    ensures start { result + 1 ≡ end }
    ensures written { drop result bytes.new ≡ byte ∷ drop end bytes.old }
    ensures long { length bytes.new ≡ length bytes.old }
{
    let start = end - 1;
    bytes[start] = byte;
    start
}

/// Writes the bytes before a place, and returns where they start.
pub fn put_bytes(word: &[u8], bytes: &mut [u8], end: usize) -> usize
    requires { (length word.now ≤ end) × (end ≤ length bytes.old) }
    ensures start { result + length word.now ≡ end }
    ensures written { drop result bytes.new ≡ word.now ++ drop end bytes.old }
    ensures long { length bytes.new ≡ length bytes.old }
{
    let start = end - word.len();
    bytes[start..end].copy_from_slice(word);
    start
}

/// Writes the number's digits before a place, and returns where they start.
#[tactic(auto, using(sect_command::proofs::DigitCounts::twenty_digits))]
pub fn put_long(number: u64, bytes: &mut [u8], end: usize) -> usize
    requires { (20 ≤ end) × (end ≤ length bytes.old) }
    ensures start { (end ≤ result + 20) × (result ≤ end) }
    ensures written { drop result bytes.new ≡ decimal number ++ drop end bytes.old }
    ensures long { length bytes.new ≡ length bytes.old }
{
    write_digits(number, bytes, end)
}

/// Writes the digits of a number of 32 bits before a place, and returns where they start.
#[tactic(auto, using(sect_command::proofs::DigitCounts::ten_digits))]
pub(crate) fn put_number(number: u32, bytes: &mut [u8], end: usize) -> usize
    requires { (10 ≤ end) × (end ≤ length bytes.old) }
    ensures start { (end ≤ result + 10) × (result ≤ end) }
    ensures written { drop result bytes.new ≡ decimal number ++ drop end bytes.old }
    ensures long { length bytes.new ≡ length bytes.old }
{
    write_digits(u64::from(number), bytes, end)
}

/// Writes the mark and the digits of a small number before a place, and returns where they start.
pub fn put_short(mark: u8, number: u8, bytes: &mut [u8], end: usize) -> usize
    requires { (11 ≤ end) × (end ≤ length bytes.old) }
    ensures start { (end ≤ result + 11) × (result ≤ end) }
    ensures written { drop result bytes.new ≡ (mark ∷ decimal number) ++ drop end bytes.old }
    ensures long { length bytes.new ≡ length bytes.old }
{
    if number < 10 {
        let digit = put(b'0' + number, bytes, end);
        return put(mark, bytes, digit);
    }
    put_marked(mark, u32::from(number), bytes, end)
}

/// Writes the mark and the number's digits before a place, and returns where they start.
pub fn put_marked(mark: u8, number: u32, bytes: &mut [u8], end: usize) -> usize
    requires { (11 ≤ end) × (end ≤ length bytes.old) }
    ensures start { (end ≤ result + 11) × (result ≤ end) }
    ensures written { drop result bytes.new ≡ (mark ∷ decimal number) ++ drop end bytes.old }
    ensures long { length bytes.new ≡ length bytes.old }
{
    let digits = put_number(number, bytes, end);
    put(mark, bytes, digits)
}

/// An id that is written as its number.
pub(crate) trait Numbered {
    ghost number_of: { Self → ℕ };

    /// The number.
    fn number_of(&self) -> u32
        ensures { result ≡ number_of self.now };
}

impl Numbered for CourseId {
    ghost number_of = { λ id. id.0 };

    fn number_of(&self) -> u32 {
        self.0
    }
}

impl Numbered for SectionId {
    ghost number_of = { λ id. id.0 };

    fn number_of(&self) -> u32 {
        self.0
    }
}

/// Writes the numbers of ids, each behind the mark, before a place, and returns where they start.
pub(crate) fn put_each<T: Numbered>(mark: u8, ids: &[T], bytes: &mut [u8], end: usize) -> usize
    requires { (11 * length ids.now ≤ end) × (end ≤ length bytes.old) }
    ensures start { (end ≤ result + 11 * length ids.now) × (result ≤ end) }
    ensures written { drop result bytes.new ≡ behind mark (map (λ id. decimal (T.number_of id)) ids.now) ++ drop end bytes.old }
    ensures long { length bytes.new ≡ length bytes.old }
{
    let mut start = end;
    let mut left = ids.len();
    while left > 0 {
        left -= 1;
        start = put_marked(mark, ids[left].number_of(), bytes, start);
    }
    start
}

/// Writes the numbers of courses, each behind the mark, before a place, and returns where they start.
pub fn put_courses(mark: u8, courses: &[CourseId], bytes: &mut [u8], end: usize) -> usize
    requires { (11 * length courses.now ≤ end) × (end ≤ length bytes.old) }
    ensures start { (end ≤ result + 11 * length courses.now) × (result ≤ end) }
    ensures written { drop result bytes.new ≡ behind mark (map course_text courses.now) ++ drop end bytes.old }
    ensures long { length bytes.new ≡ length bytes.old }
{
    put_each(mark, courses, bytes, end)
}

/// Writes a day before a place, and returns where it starts.
pub fn put_day(day: Day, bytes: &mut [u8], end: usize) -> usize
    requires { (10 ≤ end) × (end ≤ length bytes.old) }
    ensures start { result + 10 ≡ end }
    ensures written { drop result bytes.new ≡ day_text day ++ drop end bytes.old }
    ensures long { length bytes.new ≡ length bytes.old }
{
    put_bytes(&print_day(day), bytes, end)
}

/// Writes a caller before a place, and returns where it starts.
pub fn put_caller(caller: Caller, bytes: &mut [u8], end: usize) -> usize
    requires { (11 ≤ end) × (end ≤ length bytes.old) }
    ensures start { (end ≤ result + 11) × (result ≤ end) }
    ensures written { drop result bytes.new ≡ caller_text caller ++ drop end bytes.old }
    ensures long { length bytes.new ≡ length bytes.old }
{
    match caller {
        Caller::Registrar(number) => put_marked(b'r', number, bytes, end),
        Caller::Student(student) => put_marked(b's', student.0, bytes, end),
    }
}
