// Printing entry rows.

ghost use Rattle.std.specs.Prelude.{◌≡◌, ◌≤◌, ◌+◌, ◌++◌, ◌∷◌, [], OnOk, OnErr, drop, length, take};
ghost use Rattle.sect_words.specs.Parts.{sentence};
ghost use Rattle.sect_text.specs.Rows.{is_marked as has_mark, behind_mark, row_front, id_words, row_text};

use crate::reply_text::print_answer_words;
use crate::told_row::print_request;
use sect_base::{Day, Id, Memory};
use sect_command::{Command, Reply};
use sect_once::Entry;
use sect_words::{print_bytes, put, put_caller, put_day, put_long};

/// Whether the command has a first day, or a class other than 5. It takes no memory.
pub fn is_marked(command: &Command) -> bool
    ensures { result ≡ has_mark command.now }
{
    match command {
        Command::Reserve(row) => row.first.is_some(),
        Command::Wait { class, .. } => *class != 5,
        _ => false,
    }
}

/// Writes `2` and a space before a place, where a row is marked, and returns where they start.
fn put_row_mark(marked: bool, bytes: &mut [u8], end: usize) -> usize
    requires { (2 ≤ end) × (end ≤ length bytes.old) }
    ensures start { (end ≤ result + 2) × (result ≤ end) }
    ensures written { drop result bytes.new ≡ behind_mark marked (drop end bytes.old) }
    ensures long { length bytes.new ≡ length bytes.old }
{
    if marked {
        let space = put(b' ', bytes, end);
        put(b'2', bytes, space)
    } else {
        end
    }
}

/// Writes the front of a row, its id and a space at the end of the bytes, and returns where they start.
fn put_front(marked: bool, day: Day, id: Id, bytes: &mut [u8; 48]) -> usize
    ensures start { result ≤ 48 }
    ensures written { drop result bytes.new ≡ sentence (row_front marked day ++ id_words id) ++ (32 ∷ []) }
{
    let start = put(b' ', bytes, 48);
    let start = put_long(id.number, bytes, start);
    let start = put(b' ', bytes, start);
    let start = put_caller(id.caller, bytes, start);
    let start = put(b' ', bytes, start);
    let start = put_day(day, bytes, start);
    put_row_mark(marked, bytes, start)
}

/// Appends the front of a row, its id and a space, all in one piece. After `Memory` a part of it may stand at the end.
pub(crate) fn print_front(marked: bool, day: Day, id: Id, into: &mut Vec<u8>) -> Result<(), Memory>
    ensures text { OnOk result (into.new.items ≡ into.old.items ++ (sentence (row_front marked day ++ id_words id) ++ (32 ∷ []))) }
    ensures front { take (length into.old.items) into.new.items ≡ into.old.items }
{
    let mut bytes = [0; 48];
    let start = put_front(marked, day, id, &mut bytes);
    print_bytes(&bytes[start..], into)
}

/// Appends the text of a day, behind `2` and a space where a row is marked. After `Memory` a part of it may stand at the end.
pub(crate) fn print_dated(marked: bool, day: &[u8], into: &mut Vec<u8>) -> Result<(), Memory>
    ensures text { OnOk result (into.new.items ≡ into.old.items ++ behind_mark marked day.now) }
    ensures front { take (length into.old.items) into.new.items ≡ into.old.items }
{
    if marked {
        print_bytes(b"2 ", into)?;
    }
    print_bytes(day, into)
}

/// Appends `=` between two spaces. After `Memory` a part of it may stand at the end.
pub(crate) fn print_equals(into: &mut Vec<u8>) -> Result<(), Memory>
    ensures text { OnOk result (into.new.items ≡ into.old.items ++ (32 ∷ 61 ∷ 32 ∷ [])) }
    ensures front { take (length into.old.items) into.new.items ≡ into.old.items }
{
    into.reserve(3)?;
    into.push_reserved(b' ');
    into.push_reserved(b'=');
    into.push_reserved(b' ');
    Ok(())
}

/// Appends the row of an entry, with the mark `2` exactly where the command has a first day or a class other than 5.
/// It takes memory. After `Memory` the bytes are as before.
pub fn print_row(entry: &Entry<Command, Reply>, into: &mut Vec<u8>) -> Result<(), Memory>
    ensures text { OnOk result (into.new.items ≡ into.old.items ++ row_text entry.now) }
    ensures memory { OnErr result (into.new.items ≡ into.old.items) }
{
    let before = into.len();
    match print_parts(entry, into) {
        Ok(()) => Ok(()),
        Err(memory) => {
            into.truncate(before);
            Err(memory)
        }
    }
}

/// Appends the row of an entry: the request, and the reply behind it. After `Memory` a part of it may stand at the end.
fn print_parts(entry: &Entry<Command, Reply>, into: &mut Vec<u8>) -> Result<(), Memory>
    ensures text { OnOk result (into.new.items ≡ into.old.items ++ row_text entry.now) }
    ensures front { take (length into.old.items) into.new.items ≡ into.old.items }
{
    print_request(entry.id, entry.day, &entry.command, into)?;
    print_answer_words(&entry.reply, into)?;
    Ok(())
}
