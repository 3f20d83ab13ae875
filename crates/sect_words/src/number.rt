// Numbers that are written in digits.

ghost use Rattle.std.specs.Prelude.{◌≡◌, ◌≤◌, ◌<◌, ◌^◌, ℕ, decimal, get_or, IfSome, IfOk, IsSomeAnd, IsTrue, length};
ghost use Rattle.sect_words.specs.Reading.{Means};
ghost use Rattle.sect_words.specs.ReadingWords.{number_of, between_of};

use crate::fault::Fault;

/// The number of which these bytes are the text. It takes no memory.
fn parse_number(word: &[u8]) -> Option<u64>
    ensures found { IfSome result (λ n. decimal n ≡ word.now) }
    ensures only { (n : ℕ) → n < 2 ^ 64 → decimal n ≡ word.now → IsSomeAnd result (λ read. read ≡ n) }
{
    if !is_plain(word) {
        return None;
    }
    if word.len() < 20 {
        short_number(word)
    } else {
        long_number(word)
    }
}

/// The number of plain digits, of which there are so few that none is too large.
fn short_number(word: &[u8]) -> Option<u64>
    requires short { length word.now < 20 }
    requires plain { (0 < length word.now) × (get_or word.now 0 0 ≡ 48 → length word.now ≡ 1) }
    ensures found { IfSome result (λ n. decimal n ≡ word.now) }
    ensures only { (n : ℕ) → n < 2 ^ 64 → decimal n ≡ word.now → IsSomeAnd result (λ read. read ≡ n) }
{
    let mut number: u64 = 0;
    for digit in word {
        if !digit.is_ascii_digit() {
            return None;
        }
        number = number * 10 + u64::from(*digit - b'0');
    }
    Some(number)
}

/// The number of plain digits.
fn long_number(word: &[u8]) -> Option<u64>
    requires plain { (0 < length word.now) × (get_or word.now 0 0 ≡ 48 → length word.now ≡ 1) }
    ensures found { IfSome result (λ n. decimal n ≡ word.now) }
    ensures only { (n : ℕ) → n < 2 ^ 64 → decimal n ≡ word.now → IsSomeAnd result (λ read. read ≡ n) }
{
    let mut number: u64 = 0;
    for digit in word {
        if !digit.is_ascii_digit() {
            return None;
        }
        number = number
            .checked_mul(10)?
            .checked_add(u64::from(*digit - b'0'))?;
    }
    Some(number)
}

/// Whether there is a first byte, and it is no zero before others.
fn is_plain(word: &[u8]) -> bool
    ensures plain { IsTrue result → (0 < length word.now) × (get_or word.now 0 0 ≡ 48 → length word.now ≡ 1) }
    ensures only { 0 < length word.now → (get_or word.now 0 0 ≡ 48 → length word.now ≡ 1) → IsTrue result }
{
    match word {
        [] => false,
        [b'0', rest @ ..] => rest.is_empty(),
        _ => true,
    }
}

/// The number of at most `most` that is written in digits. None exactly where the word is none. It takes no memory.
pub fn number_up_to(word: &[u8], most: u64) -> Option<u64>
    ensures value { result ≡ number_of most word.now }
    ensures range { IfSome result (λ n. n ≤ most) }
{
    match parse_number(word) {
        Some(number) if number <= most => Some(number),
        _ => None,
    }
}

/// The same, `Bad` where the word is none. It takes no memory.
pub fn read_number(word: &[u8], most: u64) -> Result<u64, Fault>
    ensures range { IfOk result (λ n. n ≤ most) }
    ensures means { Means result (number_of most word.now) }
{
    match number_up_to(word, most) {
        Some(number) => Ok(number),
        None => Err(Fault::Bad),
    }
}

/// The number from `least` to `most` that is written in digits. It takes no memory.
#[tactic(auto, unfolding(crate::specs::ReadingWords::between_of))]
pub fn read_between(word: &[u8], least: u32, most: u32) -> Result<u32, Fault>
    ensures range { IfOk result (λ n. (least ≤ n) × (n ≤ most)) }
    ensures means { Means result (between_of least most word.now) }
{
    let number = read_number(word, u64::from(most))? as u32;
    if number < least {
        return Err(Fault::Bad);
    }
    Ok(number)
}
