// The weeks of a term.

ghost use Rattle.std.specs.Prelude.{◌≡◌, ◌↔◌, ◌+◌, ◌<◌, ◌≤◌, ◌^◌, ℕ, IsTrue, IsSome, IfSome};
ghost use Rattle.sect_base.specs.Pattern.{has_bit};
ghost use Rattle.sect_base.specs.Weeks.{MeetsWeek, AreDaysOfTerm, week_range};

use crate::Day;

/// The set of weeks (bit 0 is week 1) that meet the days `first` to `last`. A week has seven days, and the first begins
/// with the day `term`. None exactly where the days aren't in order or don't lie within sixty weeks.
pub fn weeks_of(term: Day, first: Day, last: Day) -> Option<u64>
    ensures found { IsSome result ↔ AreDaysOfTerm term first last }
    ensures weeks { IfSome result (λ weeks. (week : ℕ) → IsTrue (has_bit weeks week) ↔ MeetsWeek term first last week) }
    ensures some { IfSome result (λ weeks. 0 < weeks) }
    ensures bound { IfSome result (λ weeks. weeks < 2 ^ 60) }
{
    if first.get() < term.get() || last.get() < first.get() {
        return None;
    }
    let from = days_between(term, first);
    let to = days_between(term, last);
    if to > 419 {
        return None;
    }
    Some(week_range(from / 7, to / 7))
}

/// How many days it is from one day to a later one.
fn days_between(from: Day, to: Day) -> u32
    requires { from ≤ to }
    ensures { from + result ≡ to }
{
    (to.get() - from.get()) as u32
}

/// The set of the weeks from the first to the last, from 0.
pub(crate) fn week_range(first: u32, last: u32) -> u64
    requires order { first ≤ last }
    requires bound { last < 60 }
    ensures { result ≡ week_range first last }
{
    (1 << (last + 1)) - (1 << first)
}
