// Printing the lines of a batch.

ghost use Rattle.std.specs.Prelude.{◌≡◌, ◌+◌, ◌*◌, ◌++◌, ◌≤◌, OnOk, drop, flat_map, length, take};
ghost use Rattle.sect_words.specs.Parts.{behind};
ghost use Rattle.sect_text.specs.Replies.{IsPiece, ends_in_tree, line_front, line_words, result_front, tree_rest};

use sect_base::Memory;
use sect_command::{Line, LineResult};
use sect_words::{
    Spelled, print_bytes, put, put_bytes, put_choice, put_long, put_marked, put_short,
};

/// How many lines are appended in one piece at most. A line takes 132 bytes at most up to its tree.
const MOST: usize = 7;

/// Writes what became of a course request before a place, up to its tree, and returns where it starts.
fn put_result(result_of: &LineResult, bytes: &mut [u8], end: usize) -> usize
    requires { (110 ≤ end) × (end ≤ length bytes.old) }
    ensures start { (end ≤ result + 110) × (result ≤ end) }
    ensures written { drop result bytes.new ≡ result_front result_of.now ++ drop end bytes.old }
    ensures long { length bytes.new ≡ length bytes.old }
{
    match result_of {
        LineResult::Met(choice) => {
            let start = put_choice(choice, bytes, end);
            put_bytes(b" met ", bytes, start)
        }
        LineResult::Held(course) => {
            let start = put_marked(b' ', course.0, bytes, end);
            put_bytes(b" held", bytes, start)
        }
        LineResult::Blocked(visits, _) => {
            let start = put(b' ', bytes, end);
            let start = put_marked(b' ', *visits, bytes, start);
            put_bytes(b" blocked", bytes, start)
        }
        LineResult::Spent => put_bytes(b" spent", bytes, end),
        LineResult::Waiting(ticket) => {
            let start = put_long(*ticket, bytes, end);
            put_bytes(b" waiting ", bytes, start)
        }
        LineResult::Skipped => put_bytes(b" skipped", bytes, end),
    }
}

/// Writes a line before a place, up to its tree, and returns where it starts.
fn put_line(line: &Line, bytes: &mut [u8], end: usize) -> usize
    requires { (132 ≤ end) × (end ≤ length bytes.old) }
    ensures start { (end ≤ result + 132) × (result ≤ end) }
    ensures written { drop result bytes.new ≡ line_front line.now ++ drop end bytes.old }
    ensures long { length bytes.new ≡ length bytes.old }
{
    let start = put_result(&line.result, bytes, end);
    let start = put_short(b'.', line.rank, bytes, start);
    put_marked(b' ', line.student.0, bytes, start)
}

/// Writes lines before a place, each up to its tree, and returns where they start.
fn put_lines(lines: &[Line], bytes: &mut [u8], end: usize) -> usize
    requires { (132 * length lines.now ≤ end) × (end ≤ length bytes.old) }
    ensures start { result ≤ end }
    ensures written { drop result bytes.new ≡ flat_map line_front lines.now ++ drop end bytes.old }
    ensures long { length bytes.new ≡ length bytes.old }
{
    let mut start = end;
    let mut left = lines.len();
    while left > 0 {
        left -= 1;
        start = put_line(&lines[left], bytes, start);
    }
    start
}

/// Whether the line ends in a tree.
fn has_tree(line: &Line) -> bool
    ensures { result ≡ ends_in_tree line.now.result }
{
    match &line.result {
        LineResult::Blocked(_, _) => true,
        LineResult::Met(_) => false,
        LineResult::Held(_) => false,
        LineResult::Spent => false,
        LineResult::Waiting(_) => false,
        LineResult::Skipped => false,
    }
}

/// How many of the lines are appended in one piece: those up to the first that ends in a tree, and seven at most.
fn piece_len(lines: &[Line]) -> usize
    requires { 1 ≤ length lines.now }
    ensures { IsPiece lines.now result }
{
    let mut len = 1;
    while len < MOST && len < lines.len() && !has_tree(&lines[len - 1]) {
        len += 1;
    }
    len
}

/// Appends the tree of a line, where it has one. After `Memory` a part of it may stand at the end.
fn print_rest(line: &Line, into: &mut Vec<u8>) -> Result<(), Memory>
    ensures text { OnOk result (into.new.items ≡ into.old.items ++ tree_rest line.now.result) }
    ensures front { take (length into.old.items) into.new.items ≡ into.old.items }
{
    match &line.result {
        LineResult::Blocked(_, tree) => tree.print(into),
        LineResult::Met(_) => Ok(()),
        LineResult::Held(_) => Ok(()),
        LineResult::Spent => Ok(()),
        LineResult::Waiting(_) => Ok(()),
        LineResult::Skipped => Ok(()),
    }
}

/// Writes lines at the end of the bytes, each up to its tree, and returns where they start.
fn put_piece(lines: &[Line], bytes: &mut [u8; 924]) -> usize
    requires { length lines.now ≤ 7 }
    ensures start { result ≤ 924 }
    ensures written { drop result bytes.new ≡ flat_map line_front lines.now }
{
    put_lines(lines, bytes, 924)
}

/// Appends lines over these bytes in one piece, each up to its tree. After `Memory` the text is as before.
fn print_fronts(lines: &[Line], bytes: &mut [u8; 924], into: &mut Vec<u8>) -> Result<(), Memory>
    requires { length lines.now ≤ 7 }
    ensures text { OnOk result (into.new.items ≡ into.old.items ++ flat_map line_front lines.now) }
    ensures front { take (length into.old.items) into.new.items ≡ into.old.items }
{
    let start = put_piece(lines, bytes);
    print_bytes(&bytes[start..], into)
}

/// Appends lines over these bytes, in one piece up to the tree of the last. After `Memory` a part of them may stand at the end.
fn print_piece(lines: &[Line], bytes: &mut [u8; 924], into: &mut Vec<u8>) -> Result<(), Memory>
    requires { IsPiece lines.now (length lines.now) }
    ensures text { OnOk result (into.new.items ≡ into.old.items ++ behind 32 (flat_map line_words lines.now)) }
    ensures front { take (length into.old.items) into.new.items ≡ into.old.items }
{
    print_fronts(lines, bytes, into)?;
    print_rest(&lines[lines.len() - 1], into)?;
    Ok(())
}

/// Appends the lines of a batch, each behind a space. After `Memory` a part of them may stand at the end.
pub(crate) fn print_lines(lines: &[Line], into: &mut Vec<u8>) -> Result<(), Memory>
    ensures text { OnOk result (into.new.items ≡ into.old.items ++ behind 32 (flat_map line_words lines.now)) }
    ensures front { take (length into.old.items) into.new.items ≡ into.old.items }
{
    let mut bytes = [0; 924];
    let mut left = lines;
    while !left.is_empty() {
        let len = piece_len(left);
        print_piece(&left[..len], &mut bytes, into)?;
        left = &left[len..];
    }
    Ok(())
}
