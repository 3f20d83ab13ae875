// What is printed in several words.

ghost use Rattle.std.specs.Prelude.{◌≡◌, ℕ, List, [], ◌++◌, ◌∷◌, OnOk, decimal, length, take, codes, flat_map};
ghost use Rattle.sect_words.specs.Parts.{behind, sentence};
ghost use Rattle.sect_text.specs.Commands.{mark_words};

use sect_base::Memory;
use sect_words::{Spelled, print_bytes, print_marked};

/// A value that stands in several words.
pub(crate) trait Phrase {
    ghost words: { Self → List (List ℕ) };

    /// Appends the words, each behind a space. After `Memory` a part of them may stand at the end.
    fn print_words(&self, into: &mut Vec<u8>) -> Result<(), Memory>
        ensures text { OnOk result (into.new.items ≡ into.old.items ++ behind 32 (words self.now)) }
        ensures front { take (length into.old.items) into.new.items ≡ into.old.items };
}

/// Appends a space and the word. After `Memory` a part of it may stand at the end.
pub(crate) fn print_key(word: &[u8], into: &mut Vec<u8>) -> Result<(), Memory>
    ensures text { OnOk result (into.new.items ≡ into.old.items ++ (32 ∷ word.now)) }
    ensures front { take (length into.old.items) into.new.items ≡ into.old.items }
{
    into.push(b' ')?;
    print_bytes(word, into)
}

/// Appends a space and the value's word. After `Memory` a part of it may stand at the end.
pub(crate) fn print_word<T: Spelled>(value: &T, into: &mut Vec<u8>) -> Result<(), Memory>
    ensures text { OnOk result (into.new.items ≡ into.old.items ++ (32 ∷ T.spelling value.now)) }
    ensures front { take (length into.old.items) into.new.items ≡ into.old.items }
{
    print_marked(b' ', value, into)
}

/// Appends a key and the value's word, each behind a space. After `Memory` a part of them may stand at the end.
pub(crate) fn print_named<T: Spelled>(
    key: &[u8],
    value: &T,
    into: &mut Vec<u8>,
) -> Result<(), Memory>
    ensures text { OnOk result (into.new.items ≡ into.old.items ++ behind 32 (key.now ∷ T.spelling value.now ∷ [])) }
    ensures front { take (length into.old.items) into.new.items ≡ into.old.items }
{
    into.push(b' ')?;
    value.print_named(key, b' ', into)
}

/// Appends a verb and one word behind it. After `Memory` a part of them may stand at the end.
pub(crate) fn print_pair<T: Spelled>(
    verb: &[u8],
    value: &T,
    into: &mut Vec<u8>,
) -> Result<(), Memory>
    ensures text { OnOk result (into.new.items ≡ into.old.items ++ sentence (verb.now ∷ T.spelling value.now ∷ [])) }
    ensures front { take (length into.old.items) into.new.items ≡ into.old.items }
{
    value.print_named(verb, b' ', into)
}

/// Appends a verb and two words behind it. After `Memory` a part of them may stand at the end.
pub(crate) fn print_three<A: Spelled, B: Spelled>(
    verb: &[u8],
    first: &A,
    second: &B,
    into: &mut Vec<u8>,
) -> Result<(), Memory>
    ensures text { OnOk result (into.new.items ≡ into.old.items ++ sentence (verb.now ∷ A.spelling first.now ∷ B.spelling second.now ∷ [])) }
    ensures front { take (length into.old.items) into.new.items ≡ into.old.items }
{
    first.print_named(verb, b' ', into)?;
    print_word(second, into)
}

/// Appends a space and the word, where the mark holds. After `Memory` a part of it may stand at the end.
pub(crate) fn print_mark(word: &[u8], holds: bool, into: &mut Vec<u8>) -> Result<(), Memory>
    ensures text { OnOk result (into.new.items ≡ into.old.items ++ behind 32 (mark_words word.now holds)) }
    ensures front { take (length into.old.items) into.new.items ≡ into.old.items }
{
    if holds { print_key(word, into) } else { Ok(()) }
}

/// Appends the words of each value. After `Memory` a part of them may stand at the end.
pub(crate) fn print_each<T: Phrase>(values: &[T], into: &mut Vec<u8>) -> Result<(), Memory>
    ensures text { OnOk result (into.new.items ≡ into.old.items ++ behind 32 (flat_map T.words values.now)) }
    ensures front { take (length into.old.items) into.new.items ≡ into.old.items }
{
    for value in values {
        value.print_words(into)?;
    }
    Ok(())
}
