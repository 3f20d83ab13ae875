// The printed form of a set of weeks.

ghost use Rattle.std.specs.Prelude.{◌≡◌, ℕ, ◌+◌, ◌*◌, ◌-◌, ◌<◌, ◌≤◌, ◌^◌, ◌++◌, length, min, true, false, IfSome, IfNone};
ghost use Rattle.sect_base.specs.Digits.{short_digits};
ghost use Rattle.sect_base.specs.Pattern.{has_bit};
ghost use Rattle.sect_base.specs.WeekText.{weeks_text, next_run_text, IsFirstFrom, IsLastFrom};

use crate::digits::two_digits;
use crate::spelling::MeetingText;

/// Adds the printed form of these weeks, run by run.
pub(crate) fn print_weeks(text: &mut MeetingText, weeks: u64)
    requires bound { weeks < 2 ^ 60 }
    requires room { length text.old + 124 ≤ 160 }
    ensures { text.new ≡ text.old ++ weeks_text weeks }
{
    let mut week = 0;
    while let Some(first) = first_from(weeks, week) {
        let last = last_from(weeks, first);
        print_run(text, week == 0, first, last);
        week = last + 2;
    }
}

/// The first week of the set from this one on.
fn first_from(weeks: u64, from: u32) -> Option<u32>
    requires { from < 64 }
    ensures found { IfSome result (IsFirstFrom weeks from) }
    ensures none { IfNone result ((week : ℕ) → from ≤ week → has_bit weeks week ≡ false) }
{
    let rest = weeks >> from;
    if rest == 0 {
        None
    } else {
        Some(from + rest.trailing_zeros())
    }
}

/// The last week of the run that begins with this one.
fn last_from(weeks: u64, first: u32) -> u32
    requires bound { weeks < 2 ^ 60 }
    requires is_in { has_bit weeks first ≡ true }
    ensures { IsLastFrom weeks first result }
{
    first + (weeks >> first).trailing_ones() - 1
}

/// The run, after a dot unless it starts the text.
fn print_run(text: &mut MeetingText, starts: bool, first: u32, last: u32)
    requires order { first ≤ last }
    requires bound { last < 60 }
    requires room { length text.old + 6 ≤ 160 }
    ensures text { text.new ≡ text.old ++ next_run_text starts (record { first = first; last = last }) }
    ensures length { length text.new ≤ length text.old + 3 * min 2 (last + 1 - first) }
{
    if !starts {
        text.push(b'.');
    }
    print_number(text, first as u8 + 1);
    if first != last {
        text.push(b'-');
        print_number(text, last as u8 + 1);
    }
}

/// A number below 100 with no zero in front.
fn print_number(text: &mut MeetingText, n: u8)
    requires small { n < 100 }
    requires room { length text.old + 2 ≤ 160 }
    ensures text { text.new ≡ text.old ++ short_digits n }
    ensures length { length text.new ≤ length text.old + 2 }
{
    let [tens, ones] = two_digits(n);
    if n >= 10 {
        text.push(tens);
    }
    text.push(ones);
}
