// What is said of a line that is no request.

ghost use Rattle.std.specs.Prelude.{◌≡◌, ◌+◌, ◌++◌, IfOk, OnOk, decimal, length, map};
ghost use Rattle.sect_check.specs.Complaints.{
  complaint_of,
  expected_text,
  has as has_byte,
  is_marked as is_marked_word,
  missing_text,
  remark_of,
  shown as shown_as,
  stop_text,
  word_text,
};

use crate::form::{Form, Halt};
use crate::line::request;
use crate::text::print_form;
use sect_base::Memory;
use sect_words::{Parts, print_number, print_text};

/// The number behind this one.
fn next(number: u64) -> Result<u64, Memory>
    ensures { IfOk result (λ n. n ≡ number + 1) }
{
    match number.checked_add(1) {
        Some(next) => Ok(next),
        None => Err(Memory),
    }
}

/// How many words are left.
fn count(words: &mut Parts) -> Result<u64, Memory>
    ensures { IfOk result (λ n. n ≡ length words.old) }
{
    let mut count: u64 = 0;
    while words.next().is_some() {
        count = next(count)?;
    }
    Ok(count)
}

/// A byte as it is shown.
fn shown(byte: u8) -> u8
    ensures { result ≡ shown_as byte }
{
    if byte < 32 || byte == 127 { b'?' } else { byte }
}

/// Appends a word as it is shown.
fn print_shown(word: &[u8], into: &mut Vec<u8>) -> Result<(), Memory>
    ensures { OnOk result (into.new.items ≡ into.old.items ++ map shown_as word.now) }
{
    for byte in word {
        into.push(shown(*byte))?;
    }
    Ok(())
}

/// Whether the byte stands in the word.
fn has(byte: u8, word: &[u8]) -> bool
    ensures { result ≡ has_byte byte word.now }
{
    word.iter().any(|b| *b == byte)
}

/// Whether the word begins with a byte order mark.
fn is_marked(word: &[u8]) -> bool
    ensures { result ≡ is_marked_word word.now }
{
    match word {
        [239, 187, 191, ..] => true,
        _ => false,
    }
}

/// Appends what a reader may not see in a word.
#[tactic(auto, unfolding(crate::specs::Complaints::remark_of))]
fn print_remark(word: &[u8], into: &mut Vec<u8>) -> Result<(), Memory>
    ensures { OnOk result (into.new.items ≡ into.old.items ++ remark_of word.now) }
{
    if word.is_empty() {
        print_text("; there are two spaces, or one at an end of the line", into)
    } else if is_marked(word) {
        print_text("; it begins with a byte order mark", into)
    } else if has(b'\t', word) {
        print_text("; it has a tab", into)
    } else if has(b'\r', word) {
        print_text("; it has a carriage return", into)
    } else {
        Ok(())
    }
}

/// Appends a text and a number.
fn print_count(text: &str, number: u64, into: &mut Vec<u8>) -> Result<(), Memory>
    ensures { OnOk result (into.new.items ≡ into.old.items ++ (text.now ++ decimal number)) }
{
    print_text(text, into)?;
    print_number(number, into)
}

/// Appends the form that is expected.
#[tactic(auto, unfolding(crate::specs::Complaints::expected_text))]
fn print_expected(form: Form, into: &mut Vec<u8>) -> Result<(), Memory>
    ensures { OnOk result (into.new.items ≡ into.old.items ++ expected_text form) }
{
    print_text(": expected ", into)?;
    print_form(form, into)
}

/// Appends that the word with this number is missing.
#[tactic(auto, unfolding(crate::specs::Complaints::missing_text))]
fn print_missing(line: u64, number: u64, form: Form, into: &mut Vec<u8>) -> Result<(), Memory>
    ensures { OnOk result (into.new.items ≡ into.old.items ++ missing_text line number form) }
{
    print_count("line ", line, into)?;
    print_count(" word ", number, into)?;
    print_text(" is missing", into)?;
    print_expected(form, into)?;
    print_text("\n", into)?;
    Ok(())
}

/// Appends that a word, with this number, has not this form.
#[tactic(auto, unfolding(crate::specs::Complaints::word_text))]
fn print_word(
    line: u64,
    number: u64,
    word: &[u8],
    form: Form,
    into: &mut Vec<u8>,
) -> Result<(), Memory>
    ensures { OnOk result (into.new.items ≡ into.old.items ++ word_text line number word.now form) }
{
    print_count("line ", line, into)?;
    print_count(" word ", number, into)?;
    print_text(" \"", into)?;
    print_shown(word, into)?;
    print_text("\"", into)?;
    print_expected(form, into)?;
    print_remark(word, into)?;
    print_text("\n", into)?;
    Ok(())
}

/// Appends what is said of a line with so many words, where these are left from the first that has not this form.
fn print_stop(
    line: u64,
    all: u64,
    words: &mut Parts,
    form: Form,
    into: &mut Vec<u8>,
) -> Result<(), Memory>
    ensures { OnOk result (into.new.items ≡ into.old.items ++ stop_text line all words.old form) }
{
    match words.next() {
        None => print_missing(line, next(all)?, form, into),
        Some(word) => {
            let behind = count(words)?;
            print_word(line, all.saturating_sub(behind), word, form, into)
        }
    }
}

/// Appends what is said of the line with this number, and nothing where it is a request. After `Memory` a part of it may
/// stand at the end.
pub fn print_complaint(number: u64, line: &[u8], into: &mut Vec<u8>) -> Result<(), Memory>
    ensures { OnOk result (into.new.items ≡ into.old.items ++ complaint_of number line.now) }
{
    let all = count(&mut Parts::new(line, b' '))?;
    let mut words = Parts::new(line, b' ');
    match request(*into.allocator(), &mut words) {
        Ok(()) => Ok(()),
        Err(Halt::Bad(form)) => print_stop(number, all, &mut words, form, into),
        Err(Halt::Memory) => Err(Memory),
    }
}
