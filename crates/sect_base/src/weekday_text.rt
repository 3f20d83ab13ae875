// The letters of weekdays.

ghost use Rattle.std.specs.Prelude.{◌≡◌, ℕ, ◌+◌, ◌<◌, ◌≤◌, ◌^◌, ◌++◌, ◌↔◌, length, IsTrue, IfSome, IfNone};
ghost use Rattle.sect_base.specs.WeekdayText.{days_text, weekday_of, IsDaysText};

use crate::bits::is_bit_set;
use crate::spelling::MeetingText;

const LETTERS: [u8; 7] = *b"MTWRFSU";

/// Adds the letters of these weekdays.
pub(crate) fn print_days(text: &mut MeetingText, days: u8)
    requires { length text.old + 7 ≤ 160 }
    ensures text { text.new ≡ text.old ++ days_text days }
    ensures length { length text.new ≤ length text.old + 7 }
{
    for day in 0..7 {
        if is_bit_set(u64::from(days), day) {
            text.push(LETTERS[usize::from(day)]);
        }
    }
}

/// The weekdays of which this is the spelling. A text is read leniently, and then held against the spelling of what was
/// read.
pub(crate) fn read_days(text: &[u8]) -> Option<u8>
    ensures found { IfSome result (IsDaysText text.now) }
    ensures none { IfNone result ((days : ℕ) → IsDaysText text.now days → ⊥) }
{
    let days = days_in(text);
    if days != 0 && spells_days(text, days) {
        Some(days)
    } else {
        None
    }
}

/// Whether this is the spelling of these weekdays.
fn spells_days(text: &[u8], days: u8) -> bool
    ensures { IsTrue result ↔ (text.now ≡ days_text days) }
{
    let mut spelling = MeetingText::empty();
    print_days(&mut spelling, days);
    spelling.as_bytes() == text
}

/// The weekdays of which a letter is in the text.
fn days_in(text: &[u8]) -> u8
    ensures some { result < 2 ^ 7 }
    ensures back { (days : ℕ) → days < 2 ^ 7 → text.now ≡ days_text days → result ≡ days }
{
    let mut days = 0;
    for letter in text {
        days |= weekday_of(*letter);
    }
    days
}

/// The weekday of the letter as a set, or none.
fn weekday_of(letter: u8) -> u8
    ensures { result ≡ weekday_of letter }
{
    match letter {
        b'M' => 1,
        b'T' => 2,
        b'W' => 4,
        b'R' => 8,
        b'F' => 16,
        b'S' => 32,
        b'U' => 64,
        _ => 0,
    }
}
