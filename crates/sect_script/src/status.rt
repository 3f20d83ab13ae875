// How the desk ended, with its number and its text.
ghost use Rattle.std.specs.Prelude.{◌≡◌, ◌++◌, ◌∷◌, [], OnOk, codes, decimal, length, take};
ghost use Rattle.sect_script.specs.Statuses.{status_number, status_of, status_text};

use crate::script::RunEnd;
use sect_base::Memory;
use sect_words::{print_number, print_text};

/// How the desk ended. `main` ends with the number of the status, and prints its text.
#[derive(Clone, Copy, Debug, PartialEq, Eq)]
pub enum Status {
    /// 0: the input was read to its end, or the command reads none.
    Done,
    /// 2: the words aren't in the grammar.
    BadWords,
    /// 3: this line, counted from 1, can't be read; the field is 0 where none is named.
    BadLine { line: u64, field: u32 },
    /// 4: the source failed.
    ReadFault,
    /// 5: the sink failed.
    WriteFault,
    /// 6: the keeper failed while the desk opened.
    KeeperFault,
    /// 7: the row with this number, from 0, is no entry.
    BadEntry(u32),
    /// 8: a link failed.
    LinkFault,
    /// 9: want of memory.
    Memory,
}

/// The status of a run that ended so.
pub fn status_of(end: RunEnd) -> Status
    ensures { result ≡ status_of end }
{
    match end {
        RunEnd::Done => Status::Done,
        RunEnd::BadLine { line, field } => Status::BadLine { line, field },
        RunEnd::ReadFault => Status::ReadFault,
        RunEnd::WriteFault => Status::WriteFault,
        RunEnd::Memory => Status::Memory,
    }
}

/// The number with which the program ends.
pub fn number_of(status: Status) -> u8
    ensures { result ≡ status_number status }
{
    match status {
        Status::Done => 0,
        Status::BadWords => 2,
        Status::BadLine { .. } => 3,
        Status::ReadFault => 4,
        Status::WriteFault => 5,
        Status::KeeperFault => 6,
        Status::BadEntry(_) => 7,
        Status::LinkFault => 8,
        Status::Memory => 9,
    }
}

/// Appends the line of text that tells the status, none where it is `Done`. After `Memory` a part of it may stand at the end.
#[tactic(auto, unfolding(crate::specs::Statuses::status_text))]
pub fn print_status(status: Status, into: &mut Vec<u8>) -> Result<(), Memory>
    ensures text { OnOk result (into.new.items ≡ into.old.items ++ status_text status) }
    ensures front { take (length into.old.items) into.new.items ≡ into.old.items }
{
    match status {
        Status::Done => Ok(()),
        Status::BadWords => print_text(
            "usage: desk run|serve|make|audit|report|import|export|plan|survey\n",
            into,
        ),
        Status::BadLine { line, field } => print_bad_line(line, field, into),
        Status::ReadFault => print_text("read fault\n", into),
        Status::WriteFault => print_text("write fault\n", into),
        Status::KeeperFault => print_text("keeper fault\n", into),
        Status::BadEntry(row) => print_bad_entry(row, into),
        Status::LinkFault => print_text("link fault\n", into),
        Status::Memory => print_text("out of memory\n", into),
    }
}

/// Appends the text of a line that can't be read, with its field. After `Memory` a part of it may stand at the end.
fn print_bad_line(line: u64, field: u32, into: &mut Vec<u8>) -> Result<(), Memory>
    ensures text { OnOk result (into.new.items ≡ into.old.items ++ (codes "line " ++ (decimal line ++ (codes " field " ++ (decimal field ++ 10 ∷ []))))) }
    ensures front { take (length into.old.items) into.new.items ≡ into.old.items }
{
    print_text("line ", into)?;
    print_number(line, into)?;
    print_text(" field ", into)?;
    print_number(field, into)?;
    print_text("\n", into)
}

/// Appends the text of a row that is no entry. After `Memory` a part of it may stand at the end.
fn print_bad_entry(row: u32, into: &mut Vec<u8>) -> Result<(), Memory>
    ensures text { OnOk result (into.new.items ≡ into.old.items ++ (codes "bad entry " ++ (decimal row ++ 10 ∷ []))) }
    ensures front { take (length into.old.items) into.new.items ≡ into.old.items }
{
    print_text("bad entry ", into)?;
    print_number(row, into)?;
    print_text("\n", into)
}
