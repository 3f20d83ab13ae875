// What is printed in one word.

ghost use Rattle.std.specs.Prelude.{◌≡◌, ℕ, List, ◌++◌, ◌∷◌, OnOk, OnErr, IfSome, decimal, length, take};
ghost use Rattle.sect_base.specs.declared.limit.Limit.{Limit};
ghost use Rattle.sect_base.specs.MeetingText.{meeting_text};
ghost use Rattle.sect_command.specs.TreeText.{tree_text};
ghost use Rattle.sect_words.specs.Days.{day_text};
ghost use Rattle.sect_words.specs.Words.{
  optional_text,
  limit_text,
  course_text,
  section_text,
  reservation_text,
  student_text,
  class_text,
  major_text,
  caller_text,
};

use crate::digits::put_caller;
use crate::printing::{print_bytes, print_number, print_number_after, print_number_named};
use sect_base::{
    Block, Caller, ClassId, ConfigId, CourseId, Day, GroupId, Limit, MajorId, Meeting, Memory,
    ReservationId, SectionId, StudentId, print_day, print_meeting,
};
use sect_command::print_block;

/// A value that stands in one word.
pub trait Spelled {
    /// The bytes of the word.
    ghost spelling: { Self → List ℕ };

    /// Appends the word. After `Memory` a part of it may stand at the end.
    fn print(&self, into: &mut Vec<u8>) -> Result<(), Memory>
        ensures text { OnOk result (into.new.items ≡ into.old.items ++ spelling self.now) }
        ensures front { take (length into.old.items) into.new.items ≡ into.old.items };

    /// The number whose digits are the word, where the word is told to be a number's.
    fn number(&self) -> Option<u64>
        ensures { IfSome result (λ n. decimal n ≡ spelling self.now) }
    {
        None
    }

    /// Appends the mark and the word. After `Memory` a part of them may stand at the end.
    fn print_after(&self, mark: u8, into: &mut Vec<u8>) -> Result<(), Memory>
        ensures text { OnOk result (into.new.items ≡ into.old.items ++ (mark ∷ spelling self.now)) }
        ensures front { take (length into.old.items) into.new.items ≡ into.old.items }
    {
        match self.number() {
            Some(number) => print_number_after(mark, number, into),
            None => {
                into.push(mark)?;
                self.print(into)
            }
        }
    }

    /// Appends the name, the mark and the word. After `Memory` a part of them may stand at the end.
    fn print_named(&self, name: &[u8], mark: u8, into: &mut Vec<u8>) -> Result<(), Memory>
        ensures text { OnOk result (into.new.items ≡ into.old.items ++ (name.now ++ (mark ∷ spelling self.now))) }
        ensures front { take (length into.old.items) into.new.items ≡ into.old.items }
    {
        match self.number() {
            Some(number) => print_number_named(name, mark, number, into),
            None => {
                print_bytes(name, into)?;
                self.print_after(mark, into)
            }
        }
    }
}

/// Appends a value's word. After `Memory` the bytes are as before.
pub fn print_whole<T: Spelled>(value: &T, into: &mut Vec<u8>) -> Result<(), Memory>
    ensures text { OnOk result (into.new.items ≡ into.old.items ++ T.spelling value.now) }
    ensures memory { OnErr result (into.new.items ≡ into.old.items) }
{
    let before = into.len();
    let printed = value.print(into);
    if printed.is_err() {
        into.truncate(before);
    }
    printed
}

/// Appends the mark and the value's word. After `Memory` a part of them may stand at the end.
pub fn print_marked<T: Spelled>(mark: u8, value: &T, into: &mut Vec<u8>) -> Result<(), Memory>
    ensures text { OnOk result (into.new.items ≡ into.old.items ++ (mark ∷ T.spelling value.now)) }
    ensures front { take (length into.old.items) into.new.items ≡ into.old.items }
{
    value.print_after(mark, into)
}

impl Spelled for u8 {
    ghost spelling = { decimal };

    fn print(&self, into: &mut Vec<u8>) -> Result<(), Memory> {
        print_number(*self, into)
    }

    fn number(&self) -> Option<u64> {
        Some(u64::from(*self))
    }
}

impl Spelled for u16 {
    ghost spelling = { decimal };

    fn print(&self, into: &mut Vec<u8>) -> Result<(), Memory> {
        print_number(*self, into)
    }

    fn number(&self) -> Option<u64> {
        Some(u64::from(*self))
    }
}

impl Spelled for u32 {
    ghost spelling = { decimal };

    fn print(&self, into: &mut Vec<u8>) -> Result<(), Memory> {
        print_number(*self, into)
    }

    fn number(&self) -> Option<u64> {
        Some(u64::from(*self))
    }
}

impl Spelled for u64 {
    ghost spelling = { decimal };

    fn print(&self, into: &mut Vec<u8>) -> Result<(), Memory> {
        print_number(*self, into)
    }

    fn number(&self) -> Option<u64> {
        Some(*self)
    }
}

impl Spelled for CourseId {
    ghost spelling = { course_text };

    fn print(&self, into: &mut Vec<u8>) -> Result<(), Memory> {
        print_number(self.0, into)
    }

    fn number(&self) -> Option<u64> {
        Some(u64::from(self.0))
    }
}

impl Spelled for SectionId {
    ghost spelling = { section_text };

    fn print(&self, into: &mut Vec<u8>) -> Result<(), Memory> {
        print_number(self.0, into)
    }

    fn number(&self) -> Option<u64> {
        Some(u64::from(self.0))
    }
}

impl Spelled for ConfigId {
    ghost spelling = { λ id. decimal id.0 };

    fn print(&self, into: &mut Vec<u8>) -> Result<(), Memory> {
        print_number(self.0, into)
    }

    fn number(&self) -> Option<u64> {
        Some(u64::from(self.0))
    }
}

impl Spelled for GroupId {
    ghost spelling = { λ id. decimal id.0 };

    fn print(&self, into: &mut Vec<u8>) -> Result<(), Memory> {
        print_number(self.0, into)
    }

    fn number(&self) -> Option<u64> {
        Some(u64::from(self.0))
    }
}

impl Spelled for ReservationId {
    ghost spelling = { reservation_text };

    fn print(&self, into: &mut Vec<u8>) -> Result<(), Memory> {
        print_number(self.0, into)
    }

    fn number(&self) -> Option<u64> {
        Some(u64::from(self.0))
    }
}

impl Spelled for StudentId {
    ghost spelling = { student_text };

    fn print(&self, into: &mut Vec<u8>) -> Result<(), Memory> {
        print_number(self.0, into)
    }

    fn number(&self) -> Option<u64> {
        Some(u64::from(self.0))
    }
}

impl Spelled for ClassId {
    ghost spelling = { class_text };

    fn print(&self, into: &mut Vec<u8>) -> Result<(), Memory> {
        print_number(self.0, into)
    }

    fn number(&self) -> Option<u64> {
        Some(u64::from(self.0))
    }
}

impl Spelled for MajorId {
    ghost spelling = { major_text };

    fn print(&self, into: &mut Vec<u8>) -> Result<(), Memory> {
        print_number(self.0, into)
    }

    fn number(&self) -> Option<u64> {
        Some(u64::from(self.0))
    }
}

impl Spelled for Day {
    ghost spelling = { day_text };

    fn print(&self, into: &mut Vec<u8>) -> Result<(), Memory> {
        print_bytes(&print_day(*self), into)
    }
}

impl Spelled for Meeting {
    ghost spelling = { meeting_text };

    fn print(&self, into: &mut Vec<u8>) -> Result<(), Memory> {
        print_bytes(print_meeting(self).as_bytes(), into)
    }
}

impl Spelled for Block {
    ghost spelling = { tree_text };

    fn print(&self, into: &mut Vec<u8>) -> Result<(), Memory> {
        print_block(self, into)
    }
}

impl<T: Spelled> Spelled for Option<T> {
    ghost spelling = { optional_text T.spelling };

    fn print(&self, into: &mut Vec<u8>) -> Result<(), Memory> {
        match self {
            Some(value) => value.print(into),
            None => print_bytes(b"-", into),
        }
    }

    fn print_after(&self, mark: u8, into: &mut Vec<u8>) -> Result<(), Memory> {
        match self {
            Some(value) => value.print_after(mark, into),
            None => print_bytes(&[mark, b'-'], into),
        }
    }
}

impl Spelled for Limit {
    ghost spelling = { limit_text };

    fn print(&self, into: &mut Vec<u8>) -> Result<(), Memory> {
        match self {
            Limit::Unlimited => print_bytes(b"-", into),
            Limit::Places(places) => print_number(*places, into),
        }
    }

    fn print_after(&self, mark: u8, into: &mut Vec<u8>) -> Result<(), Memory> {
        match self {
            Limit::Unlimited => print_bytes(&[mark, b'-'], into),
            Limit::Places(places) => print_number_after(mark, u64::from(*places), into),
        }
    }
}

impl Spelled for Caller {
    ghost spelling = { caller_text };

    fn print(&self, into: &mut Vec<u8>) -> Result<(), Memory> {
        let mut bytes = [0; 16];
        let start = put_caller(*self, &mut bytes, 16);
        print_bytes(&bytes[start..], into)
    }
}
