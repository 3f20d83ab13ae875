// The lines of reports.

ghost use Rattle.std.specs.Prelude.{◌≡◌, ◌++◌, ◌∷◌, [], OnOk, OnErr, length, map, take};
ghost use Rattle.sect_report.specs.Line.{line_text, more_words_text, space_text, word_text};

use itoa::Buffer;
use sect_base::{Block, Choice, CourseId, Limit, Memory, SectionId};
use sect_words::{Spelled, print_list, print_number, print_text};

/// A word of a line.
#[derive(Clone, Copy)]
pub enum Word<'a> {
    Name(&'a str),
    Number(u64),
    /// A number, or a dash for none.
    Optional(Option<u64>),
    /// Unreserved space, or a dash where there is no limit.
    Space(Option<i64>),
    Places(Limit),
    Courses(&'a [CourseId]),
    Sections(&'a [SectionId]),
    Choice(&'a Choice),
    Tree(&'a Block),
}

/// Appends a line. After `Memory` the bytes are as before.
pub fn print_line(words: &[Word], into: &mut Vec<u8>) -> Result<(), Memory>
    ensures text { OnOk result (into.new.items ≡ into.old.items ++ line_text (map word_text words.now)) }
    ensures memory { OnErr result (into.new.items ≡ into.old.items) }
{
    let before = into.len();
    let printed = match words {
        [] => end_line(into),
        [first, others @ ..] => print_words(first, others, into),
    };
    if printed.is_err() {
        into.truncate(before);
    }
    printed
}

/// Appends the words of a line and its end. After `Memory` a part of it may stand at the end.
fn print_words(first: &Word, others: &[Word], into: &mut Vec<u8>) -> Result<(), Memory>
    ensures text { OnOk result (into.new.items ≡ into.old.items ++ (word_text first.now ++ more_words_text (map word_text others.now))) }
    ensures front { take (length into.old.items) into.new.items ≡ into.old.items }
{
    print_word(first, into)?;
    for word in others {
        print_next(word, into)?;
    }
    end_line(into)
}

/// Appends a space and a word. After `Memory` a part of them may stand at the end.
fn print_next(word: &Word, into: &mut Vec<u8>) -> Result<(), Memory>
    ensures text { OnOk result (into.new.items ≡ into.old.items ++ 32 ∷ word_text word.now) }
    ensures front { take (length into.old.items) into.new.items ≡ into.old.items }
{
    into.push(b' ')?;
    print_word(word, into)
}

/// Appends a line feed. After `Memory` the bytes are as before.
fn end_line(into: &mut Vec<u8>) -> Result<(), Memory>
    ensures text { OnOk result (into.new.items ≡ into.old.items ++ 10 ∷ []) }
    ensures memory { OnErr result (into.new.items ≡ into.old.items) }
{
    into.push(b'\n')?;
    Ok(())
}

/// Appends a word. After `Memory` a part of it may stand at the end.
fn print_word(word: &Word, into: &mut Vec<u8>) -> Result<(), Memory>
    ensures text { OnOk result (into.new.items ≡ into.old.items ++ word_text word.now) }
    ensures front { take (length into.old.items) into.new.items ≡ into.old.items }
{
    match word {
        Word::Name(name) => print_text(name, into),
        Word::Number(number) => print_number(*number, into),
        Word::Optional(number) => number.print(into),
        Word::Space(space) => print_space(*space, into),
        Word::Places(limit) => limit.print(into),
        Word::Courses(courses) => print_list(b'+', courses, into),
        Word::Sections(sections) => print_list(b'+', sections, into),
        Word::Choice(choice) => choice.print(into),
        Word::Tree(tree) => tree.print(into),
    }
}

/// Appends unreserved space, or a dash where there is no limit. After `Memory` the bytes are as before.
fn print_space(space: Option<i64>, into: &mut Vec<u8>) -> Result<(), Memory>
    ensures text { OnOk result (into.new.items ≡ into.old.items ++ space_text space) }
    ensures memory { OnErr result (into.new.items ≡ into.old.items) }
{
    match space {
        Some(space) => print_text(Buffer::new().format(space), into),
        None => print_text("-", into),
    }
}
