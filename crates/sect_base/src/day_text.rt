// The texts of days.

ghost use Rattle.std.specs.Prelude.{◌≡◌, ◌<◌, ◌≤◌, ℕ, IfSome, IfNone, IfOk, OnErr, List, Ok, Err, pos};
ghost use Rattle.jiff_core.specs.Calendar.{IsDate, days_from_civil};
ghost use Rattle.sect_base.specs.Day.{LAST_DAY};
ghost use Rattle.sect_base.specs.DayText.{IsDayText};

use crate::digits::{number_at, two_digits};
use crate::{Day, TimeFault};
use jiff_core::civil::Date;

/// The day that the text says, as `YYYY-MM-DD`. BadDate exactly where it says none.
pub fn read_day(text: &[u8]) -> Result<Day, TimeFault>
    ensures ok { IfOk result (IsDayText text.now) }
    ensures printed { (day : ℕ) → day ≤ LAST_DAY → IsDayText text.now day → result ≡ Ok day }
    ensures err { OnErr result ((day : ℕ) → day ≤ LAST_DAY → IsDayText text.now day → ⊥) }
    ensures fault { OnErr result (result ≡ Err TimeFault.BadDate) }
{
    match day_of(text) {
        Some(day) => Ok(day),
        None => Err(TimeFault::BadDate),
    }
}

/// The day that the text says, where it says one.
fn day_of(text: &[u8]) -> Option<Day>
    ensures found { IfSome result (IsDayText text.now) }
    ensures none { IfNone result ((day : ℕ) → day ≤ LAST_DAY → IsDayText text.now day → ⊥) }
{
    if text.len() != 10 || text[4] != b'-' || text[7] != b'-' {
        return None;
    }
    let century = number_at(text, 0)?;
    let year = number_at(text, 2)?;
    let month = number_at(text, 5)?;
    let date = number_at(text, 8)?;
    let year = u16::from(century) * 100 + u16::from(year);
    Day::new(day_number(year, month, date)?)
}

/// The text of the day, as `YYYY-MM-DD`. Each day has this one spelling.
pub fn print_day(day: Day) -> [u8; 10]
    ensures text { IsDayText result day }
    ensures spelling { (text : List ℕ) → IsDayText text day → text ≡ result }
{
    spelled(day)
}

/// The ten bytes, from the calendar's date.
fn spelled(day: Day) -> [u8; 10]
    ensures { IsDayText result day }
{
    let (year, month, date) = civil_date(day);
    let [a, b] = two_digits((year / 100) as u8);
    let [c, d] = two_digits((year % 100) as u8);
    let [e, f] = two_digits(month);
    let [g, h] = two_digits(date);
    [a, b, c, d, b'-', e, f, b'-', g, h]
}

/// The year, the month and the day of the month.
fn civil_date(day: Day) -> (u16, u8, u8)
    ensures date { IsDate (pos result.0) (pos result.1) (pos result.2) }
    ensures number { days_from_civil (pos result.0) result.1 result.2 ≡ pos day }
{
    match Date::from_unix_epoch_day(i64::from(day.get())) {
        Ok(date) => (date.year as u16, date.month, date.day),
        Err(_) => unreachable!(),
    }
}

/// The number of a civil date, where there is such a date.
fn day_number(year: u16, month: u8, date: u8) -> Option<i32>
    requires year { year < 10000 }
    requires month { month < 100 }
    requires date { date < 100 }
    ensures found { IfSome result (λ day. IsDate (pos year) (pos month) (pos date) × (day ≡ days_from_civil (pos year) month date)) }
    ensures none { IfNone result (IsDate (pos year) (pos month) (pos date) → ⊥) }
{
    match Date::new(year as i16, month as i8, date as i8) {
        Ok(date) => Some(date.to_unix_epoch_day()),
        Err(_) => None,
    }
}
