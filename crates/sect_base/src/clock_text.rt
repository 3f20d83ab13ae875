// The text of a meeting's time of day.

ghost use Rattle.std.specs.Prelude.{◌≡◌, ℕ, ◌+◌, ◌*◌, ◌/◌, ◌%◌, ◌<◌, ◌≤◌, ◌++◌, ◌∷◌, length, slice_index, IfSome, IfNone};
ghost use Rattle.sect_base.specs.ClockText.{clock_text, time_text, IsClockAt, IsTimeText};

use crate::digits::{number_at, two_digits};
use crate::spelling::MeetingText;

/// Adds `HHMM-HHMM`.
pub(crate) fn print_time(text: &mut MeetingText, start: u16, end: u16)
    requires order { start ≤ end }
    requires end { end ≤ 288 }
    requires room { length text.old + 9 ≤ 160 }
    ensures text { text.new ≡ text.old ++ time_text start end }
    ensures length { length text.new ≡ length text.old + 9 }
{
    print_clock(text, start);
    text.push(b'-');
    print_clock(text, end);
}

/// `HHMM` at which the slot begins.
fn print_clock(text: &mut MeetingText, slot: u16)
    requires slot { slot ≤ 288 }
    requires room { length text.old + 4 ≤ 160 }
    ensures text { text.new ≡ text.old ++ clock_text slot }
    ensures length { length text.new ≡ length text.old + 4 }
{
    let [a, b] = two_digits((slot / 12) as u8);
    let [c, d] = two_digits((5 * (slot % 12)) as u8);
    text.push(a);
    text.push(b);
    text.push(c);
    text.push(d);
}

/// The first slot and the one before which the time ends.
pub(crate) fn read_time(text: &[u8]) -> Option<(u16, u16)>
    ensures found { IfSome result (λ time. IsTimeText text.now time.0 time.1) }
    ensures none { IfNone result ((start end : ℕ) → IsTimeText text.now start end → ⊥) }
{
    if text.len() != 9 || text[4] != b'-' {
        return None;
    }
    let start = slot_at(text, 0)?;
    let end = slot_at(text, 5)?;
    if start < 288 {
        Some((start, end))
    } else {
        None
    }
}

/// The slot that begins at the `HHMM` at this place.
fn slot_at(text: &[u8], at: usize) -> Option<u16>
    requires { at + 3 < length text.now }
    ensures hours { IfSome result (λ slot. slot < 1200) }
    ensures found { IfSome result (IsClockAt text.now at) }
    ensures none { IfNone result ((slot : ℕ) → slot < 1200 → IsClockAt text.now at slot → ⊥) }
{
    let hour = number_at(text, at)?;
    let minute = number_at(text, at + 2)?;
    if minute < 60 && minute % 5 == 0 {
        Some(u16::from(hour) * 12 + u16::from(minute / 5))
    } else {
        None
    }
}
