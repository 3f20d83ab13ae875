// Numbers and days of words. It takes no memory.

ghost use Rattle.std.specs.Prelude.{◌≡◌, ◌≤◌, IfSome, option_map};
ghost use Rattle.sect_usage.specs.Grammar.{usual_or};
ghost use Rattle.sect_words.specs.ReadingWords.{between_of, day_of, number_of};

use sect_base::{Day, read_day};
use sect_words::number_up_to;

/// The number of 32 bits that is written in digits. None exactly where the word is none.
pub fn id(word: &[u8]) -> Option<u32>
    ensures { result ≡ number_of 4294967295 word.now }
{
    Some(number_up_to(word, 4_294_967_295)? as u32)
}

/// The number from the least to the most. None exactly where the word is none.
#[tactic(auto, unfolding(sect_words::specs::ReadingWords::between_of))]
pub(crate) fn between(word: &[u8], least: u32, most: u32) -> Option<u32>
    ensures value { result ≡ between_of least most word.now }
    ensures low { IfSome result (λ n. least ≤ n) }
    ensures high { IfSome result (λ n. n ≤ most) }
{
    let number = number_up_to(word, u64::from(most))? as u32;
    if least <= number { Some(number) } else { None }
}

/// The number from the least to the most where there is a word, else the usual one. None exactly where the word is none.
pub(crate) fn usual(word: Option<&[u8]>, usual: u32, least: u32, most: u32) -> Option<u32>
    requires low { least ≤ usual }
    requires high { usual ≤ most }
    ensures value { result ≡ usual_or usual least most (option_map (λ w. w.now) word.entry) }
    ensures low { IfSome result (λ n. least ≤ n) }
    ensures high { IfSome result (λ n. n ≤ most) }
{
    match word {
        None => Some(usual),
        Some(word) => between(word, least, most),
    }
}

/// The day of a word. None exactly where the word is none.
pub(crate) fn day(word: &[u8]) -> Option<Day>
    ensures { result ≡ day_of word.now }
{
    match read_day(word) {
        Ok(day) => {
            prove!(day.get() >= 0);
            Some(day)
        }
        Err(_) => None,
    }
}
