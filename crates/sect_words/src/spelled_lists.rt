// What is printed in one word of elements with a mark between them.

ghost use Rattle.std.specs.Prelude.{◌≡◌, ◌++◌, ◌∷◌, OnOk, length, take, map};
ghost use Rattle.sect_words.specs.Parts.{joined, behind};
ghost use Rattle.sect_words.specs.Words.{list_text, course_text, sections_text};

use crate::printing::print_bytes;
use crate::spelled::{Spelled, print_marked};
use sect_base::{Alternatives, Items, Memory, Sections};

/// Appends the elements, each behind the mark. After `Memory` a part of them may stand at the end.
pub(crate) fn print_behind<T: Spelled>(
    mark: u8,
    items: &[T],
    into: &mut Vec<u8>,
) -> Result<(), Memory>
    ensures text { OnOk result (into.new.items ≡ into.old.items ++ behind mark (map T.spelling items.now)) }
    ensures front { take (length into.old.items) into.new.items ≡ into.old.items }
{
    for item in items {
        print_marked(mark, item, into)?;
    }
    Ok(())
}

/// Appends the elements with the mark between each two. After `Memory` a part of them may stand at the end.
fn print_joined<T: Spelled>(mark: u8, items: &[T], into: &mut Vec<u8>) -> Result<(), Memory>
    ensures text { OnOk result (into.new.items ≡ into.old.items ++ joined mark (map T.spelling items.now)) }
    ensures front { take (length into.old.items) into.new.items ≡ into.old.items }
{
    match items {
        [] => Ok(()),
        [first, rest @ ..] => {
            first.print(into)?;
            print_behind(mark, rest, into)
        }
    }
}

/// Appends the elements with the mark between each two, or a dash where there is none. After `Memory` a part of them
/// may stand at the end.
pub fn print_list<T: Spelled>(mark: u8, items: &[T], into: &mut Vec<u8>) -> Result<(), Memory>
    ensures text { OnOk result (into.new.items ≡ into.old.items ++ list_text mark T.spelling items.now) }
    ensures front { take (length into.old.items) into.new.items ≡ into.old.items }
{
    if items.is_empty() {
        print_bytes(b"-", into)
    } else {
        print_joined(mark, items, into)
    }
}

/// Appends the mark and the elements with plus signs between them, or a dash. After `Memory` a part of them may stand at
/// the end.
fn print_list_after<T: Spelled>(mark: u8, items: &[T], into: &mut Vec<u8>) -> Result<(), Memory>
    ensures text { OnOk result (into.new.items ≡ into.old.items ++ (mark ∷ list_text 43 T.spelling items.now)) }
    ensures front { take (length into.old.items) into.new.items ≡ into.old.items }
{
    match items {
        [] => print_bytes(&[mark, b'-'], into),
        [first, rest @ ..] => {
            first.print_after(mark, into)?;
            print_behind(b'+', rest, into)
        }
    }
}

/// Appends the name, the mark and the elements with plus signs between them, or a dash. After `Memory` a part of them may
/// stand at the end.
fn print_list_named<T: Spelled>(
    name: &[u8],
    mark: u8,
    items: &[T],
    into: &mut Vec<u8>,
) -> Result<(), Memory>
    ensures text { OnOk result (into.new.items ≡ into.old.items ++ (name.now ++ (mark ∷ list_text 43 T.spelling items.now))) }
    ensures front { take (length into.old.items) into.new.items ≡ into.old.items }
{
    match items {
        [] => {
            print_bytes(name, into)?;
            print_bytes(&[mark, b'-'], into)
        }
        [first, rest @ ..] => {
            first.print_named(name, mark, into)?;
            print_behind(b'+', rest, into)
        }
    }
}

impl<T: Spelled> Spelled for Items<T> {
    ghost spelling = { list_text 43 T.spelling };

    fn print(&self, into: &mut Vec<u8>) -> Result<(), Memory> {
        print_list(b'+', self.as_slice(), into)
    }

    fn print_after(&self, mark: u8, into: &mut Vec<u8>) -> Result<(), Memory> {
        print_list_after(mark, self.as_slice(), into)
    }

    fn print_named(&self, name: &[u8], mark: u8, into: &mut Vec<u8>) -> Result<(), Memory> {
        print_list_named(name, mark, self.as_slice(), into)
    }
}

impl Spelled for Alternatives {
    ghost spelling = { list_text 43 course_text };

    fn print(&self, into: &mut Vec<u8>) -> Result<(), Memory> {
        print_list(b'+', self.as_slice(), into)
    }

    fn print_after(&self, mark: u8, into: &mut Vec<u8>) -> Result<(), Memory> {
        print_list_after(mark, self.as_slice(), into)
    }

    fn print_named(&self, name: &[u8], mark: u8, into: &mut Vec<u8>) -> Result<(), Memory> {
        print_list_named(name, mark, self.as_slice(), into)
    }
}

impl Spelled for Sections {
    ghost spelling = { sections_text };

    fn print(&self, into: &mut Vec<u8>) -> Result<(), Memory> {
        print_joined(b'+', self.as_slice(), into)
    }
}
