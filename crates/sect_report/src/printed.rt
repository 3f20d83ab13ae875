// Values that have lines in a report, and lists of them.

ghost use Rattle.std.specs.Prelude.{◌≡◌, ℕ, ◌++◌, List, OnOk, OnErr, length, map, take};
ghost use Rattle.std.specs.List.{flat_map};
ghost use Rattle.sect_report.specs.Line.{line_text, word_text};
ghost use Rattle.sect_report.specs.Report.{listed_text};

use crate::line::{Word, print_line};
use sect_base::Memory;

/// A value that has lines in a report.
pub trait Printed {
    /// The lines.
    ghost lines: { Self → List ℕ };

    /// Appends the lines. After `Memory` the bytes are as before.
    fn print(&self, into: &mut Vec<u8>) -> Result<(), Memory>
        ensures text { OnOk result (into.new.items ≡ into.old.items ++ lines self.now) }
        ensures memory { OnErr result (into.new.items ≡ into.old.items) };
}

/// Appends the lines of each. After `Memory` the bytes are as before.
pub(crate) fn print_each<P: Printed>(items: &[P], into: &mut Vec<u8>) -> Result<(), Memory>
    ensures text { OnOk result (into.new.items ≡ into.old.items ++ flat_map P.lines items.now) }
    ensures memory { OnErr result (into.new.items ≡ into.old.items) }
{
    let before = into.len();
    let printed = print_items(items, into);
    if printed.is_err() {
        into.truncate(before);
    }
    printed
}

/// Appends the lines of each. After `Memory` a part of them may stand at the end.
fn print_items<P: Printed>(items: &[P], into: &mut Vec<u8>) -> Result<(), Memory>
    ensures text { OnOk result (into.new.items ≡ into.old.items ++ flat_map P.lines items.now) }
    ensures front { take (length into.old.items) into.new.items ≡ into.old.items }
{
    for item in items {
        item.print(into)?;
    }
    Ok(())
}

/// Appends a line and the lines of each item below it. After `Memory` the bytes are as before.
pub(crate) fn print_under<P: Printed>(
    words: &[Word],
    items: &[P],
    into: &mut Vec<u8>,
) -> Result<(), Memory>
    ensures text { OnOk result (into.new.items ≡ into.old.items ++ (line_text (map word_text words.now) ++ flat_map P.lines items.now)) }
    ensures memory { OnErr result (into.new.items ≡ into.old.items) }
{
    let before = into.len();
    print_line(words, into)?;
    let printed = print_each(items, into);
    if printed.is_err() {
        into.truncate(before);
    }
    printed
}

/// Appends the lines of each, or one that says that there are none. After `Memory` the bytes are as before.
pub fn print_list<P: Printed>(items: &[P], into: &mut Vec<u8>) -> Result<(), Memory>
    ensures text { OnOk result (into.new.items ≡ into.old.items ++ listed_text P.lines items.now) }
    ensures memory { OnErr result (into.new.items ≡ into.old.items) }
{
    if items.is_empty() {
        print_line(&[Word::Name("none")], into)
    } else {
        print_each(items, into)
    }
}
