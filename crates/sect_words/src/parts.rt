// The parts of a text between marks, from the first to the last.

ghost use Rattle.std.specs.Prelude.{
  ◌≡◌,
  ℕ,
  ◌==◌,
  ◌≤◌,
  ◌<◌,
  ◌+◌,
  take,
  drop,
  length,
  get_or,
  List,
  [],
  ◌∷◌,
  Some,
  None,
  position,
  if◌then◌else◌,
  IfOk,
  IfSome,
  IsTrue,
  false,
};
ghost use Rattle.std.specs.Option.{option_map};
ghost use Rattle.std.specs.Str.{bytes_eq};
ghost use Rattle.std.specs.Str.Parse.{AllDigits};
ghost use Rattle.std.specs.Int.{IsInRange};
ghost use Rattle.sect_words.specs.Parts.{pieces};
ghost use Rattle.sect_words.specs.Reading.{Reads, word_at, first_part, later_parts, begins, is_nil, marked_if};
ghost use Rattle.sect_words.specs.ReadingWords.{number_of, u32_of, u64_of};

use crate::fault::Fault;
use crate::number::read_number;
use std::marker::Model;

/// What is left of a text in parts, as the words of a line between spaces. Contracts see the list of the parts.
#[derive(Drop)]
pub struct Parts<'a> {
    text: &'a [u8],
    mark: u8,
    // Whether the last part was taken.
    done: bool,
}

impl<'a> Model for Parts<'a> {
    ghost use Rattle.std.specs.Prelude.{ℕ, List};
    ghost use Rattle.sect_words.specs.Parts.{parts_left};

    ghost Value = { List (List ℕ) };

    ghost view = { λ p. parts_left p.done p.mark p.text.now };
}

/// The place of the first mark.
fn mark_in(text: &[u8], mark: u8) -> Option<usize>
    ensures { result ≡ position (λ byte. byte == mark) text.now }
{
    text.iter().position(|byte| *byte == mark)
}

/// What stands behind the byte at a place.
fn behind(text: &[u8], at: usize) -> &[u8]
    requires { at < length text.now }
    ensures { result.now ≡ drop (at + 1) text.now }
{
    &text[at + 1..]
}

/// Whether the first part of a text is this word. It looks no further than the word is long.
#[inline(always)]
fn begins_with(text: &[u8], mark: u8, word: &[u8]) -> bool
    ensures { result ≡ begins word.now (pieces mark text.now) }
{
    if text.len() < word.len() {
        return false;
    }
    let mut rest = text;
    let mut other = word;
    while let [byte, more @ ..] = other {
        if rest[0] != *byte || *byte == mark {
            return false;
        }
        rest = &rest[1..];
        other = more;
    }
    rest.is_empty() || rest[0] == mark
}

/// Whether a text begins with a digit from 1 to 9.
#[inline(always)]
fn begins_number(text: &[u8]) -> bool
    ensures { IsTrue result → (0 < length text.now) × IsInRange 49 57 (get_or text.now 0 0) }
{
    !text.is_empty() && text[0] >= b'1' && text[0] <= b'9'
}

/// Whether so many digits at the front of a text are its first part.
#[inline(always)]
fn ends_number(text: &[u8], mark: u8, count: usize) -> bool
    requires within { count ≤ length text.now }
    requires digits { AllDigits 10 (take count text.now) }
    ensures { IsTrue result → first_part (pieces mark text.now) ≡ Some (take count text.now) }
{
    if mark.is_ascii_digit() {
        return false;
    }
    count == text.len() || text[count] == mark
}

impl<'a> Parts<'a> {
    /// The parts of a text.
    pub fn new(text: &'a [u8], mark: u8) -> Parts<'a>
        ensures { result ≡ pieces mark text.now }
    {
        Parts {
            text,
            mark,
            done: false,
        }
    }

    /// The first part that is left. None exactly where none is.
    #[inline(always)]
    pub fn first(&self) -> Option<&'a [u8]>
        ensures { option_map (λ part. part.now) result ≡ first_part self.now }
    {
        if self.done {
            return None;
        }
        match mark_in(self.text, self.mark) {
            Some(at) => Some(&self.text[..at]),
            None => Some(self.text),
        }
    }

    /// Takes the first part off, where there is one.
    pub fn take(&mut self)
        ensures { self.new ≡ later_parts self.old }
    {
        if self.done {
            return;
        }
        match mark_in(self.text, self.mark) {
            Some(at) => self.text = behind(self.text, at),
            None => self.done = true,
        }
    }

    /// Takes the first part off, of which the length is known.
    #[inline(always)]
    fn pass(&mut self, len: usize)
        requires { option_map length (first_part self.now) ≡ Some len }
        ensures { self.new ≡ later_parts self.old }
    {
        if len == self.text.len() {
            self.done = true;
        } else {
            self.text = behind(self.text, len);
        }
    }

    /// Takes the next part. None exactly where none is left.
    pub fn next(&mut self) -> Option<&'a [u8]>
        ensures part { option_map (λ part. part.now) result ≡ first_part self.old }
        ensures rest { self.new ≡ later_parts self.old }
    {
        if self.done {
            return None;
        }
        let text = self.text;
        match mark_in(text, self.mark) {
            Some(at) => {
                self.text = behind(text, at);
                Some(&text[..at])
            }
            None => {
                self.done = true;
                Some(text)
            }
        }
    }

    /// Whether nothing is left.
    pub fn is_empty(&self) -> bool
        ensures { result ≡ is_nil self.now }
    {
        self.done
    }

    /// Whether the next part is this word.
    #[inline(always)]
    pub fn begins(&self, word: &[u8]) -> bool
        ensures { result ≡ begins word.now self.now }
    {
        !self.done && begins_with(self.text, self.mark, word)
    }

    /// Takes the next part where it is this word, and tells whether it was.
    #[inline(always)]
    pub fn takes(&mut self, word: &[u8]) -> bool
        ensures found { result ≡ begins word.now self.old }
        ensures rest { self.new ≡ (marked_if (begins word.now self.old) self.old).1 }
        ensures longest { length self.new ≤ length self.old }
    {
        let found = self.begins(word);
        if found {
            self.pass(word.len());
        }
        found
    }

    /// Takes this byte off the front of the next part where the part begins with it, and tells whether it did.
    #[inline(always)]
    pub(crate) fn strips(&mut self, byte: u8) -> bool
        ensures found { IsTrue result → first_part self.old ≡ option_map (λ part. byte ∷ part) (first_part self.new) }
        ensures later { later_parts self.new ≡ later_parts self.old }
        ensures same { result ≡ false → self.new ≡ self.old }
    {
        if self.done || byte == self.mark {
            return false;
        }
        match self.text {
            [first, rest @ ..] if *first == byte => {
                self.text = rest;
                true
            }
            _ => false,
        }
    }

    /// The number of at most `most` in the next part, which is taken, where its digits begin with no 0 and are 19 at most. One look
    /// at each byte finds both the number and the end. None where nothing is taken.
    #[inline(always)]
    pub(crate) fn take_digits(&mut self, most: u64) -> Option<u64>
        ensures range { IfSome result (λ n. n ≤ most) }
        ensures reads { IfSome result (λ n. word_at (number_of most) self.old ≡ Some (n, self.new)) }
        ensures digits { IfSome result (λ _. IfSome (first_part self.old) (λ part. AllDigits 10 part)) }
        ensures shorter { IfSome result (λ _. length self.new < length self.old) }
        ensures same { result ≡ None → self.new ≡ self.old }
    {
        let text = self.text;
        if self.done || !begins_number(text) {
            return None;
        }
        let mut number = u64::from(text[0] - b'0');
        let mut count: usize = 1;
        while count < text.len()
            && number < 1_000_000_000_000_000_000
            && text[count].is_ascii_digit()
        {
            number = number * 10 + u64::from(text[count] - b'0');
            count += 1;
        }
        if number <= most && ends_number(text, self.mark, count) {
            self.pass(count);
            return Some(number);
        }
        None
    }

    /// The number of at most `most` in the next part, which is taken.
    #[inline(always)]
    pub(crate) fn take_number(&mut self, most: u64) -> Result<u64, Fault>
        ensures range { IfOk result (λ n. n ≤ most) }
        ensures reads { Reads result self.new (word_at (number_of most) self.old) }
        ensures shorter { IfOk result (λ _. length self.new < length self.old) }
    {
        match self.take_digits(most) {
            Some(number) => Ok(number),
            None => self.take_any_number(most),
        }
    }

    /// The number of at most `most` in the next part, whatever stands there. The part is taken.
    #[inline(never)]
    fn take_any_number(&mut self, most: u64) -> Result<u64, Fault>
        ensures range { IfOk result (λ n. n ≤ most) }
        ensures reads { Reads result self.new (word_at (number_of most) self.old) }
        ensures shorter { IfOk result (λ _. length self.new < length self.old) }
    {
        match self.next() {
            Some(part) => read_number(part, most),
            None => Err(Fault::Bad),
        }
    }

    /// The number of 64 bits in the next part, which is taken.
    #[inline(always)]
    pub fn long(&mut self) -> Result<u64, Fault>
        ensures reads { Reads result self.new (word_at u64_of self.old) }
        ensures shorter { IfOk result (λ _. length self.new < length self.old) }
    {
        self.take_number(u64::MAX)
    }

    /// The number of 32 bits in the next part, which is taken.
    #[inline(always)]
    pub(crate) fn take_u32(&mut self) -> Result<u32, Fault>
        ensures reads { Reads result self.new (word_at u32_of self.old) }
        ensures shorter { IfOk result (λ _. length self.new < length self.old) }
    {
        Ok(self.take_number(4_294_967_295)? as u32)
    }
}
