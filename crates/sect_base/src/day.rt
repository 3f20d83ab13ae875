// Civil days.

ghost use Rattle.std.specs.Prelude.{◌≡◌, ◌↔◌, ◌≤◌, pos, IsSome, IfSome};
ghost use Rattle.sect_base.specs.Day.{IsDayNumber, LAST_DAY};

use std::marker::Model;

/// A civil day of the years 1970 to 2199, counted from 1970-01-01 as 0. Contracts see it as that number.
#[derive(Clone, Copy, PartialEq, Eq, PartialOrd, Ord, Debug)]
pub struct Day(i32);

impl Model for Day {
    ghost use Rattle.std.specs.Prelude.{ℕ, pos, nat_abs};
    ghost use Rattle.sect_base.specs.Day.{IsDayNumber};

    ghost Value = { ℕ };

    ghost view = { λ d. nat_abs d.0 };

    ghost inverse = { λ n. record { 0 = pos n } };

    ghost invariant = { λ d. IsDayNumber d.0 };
}

impl Day {
    /// The day with this number. None exactly where `n` is below 0 or above 84,005.
    pub fn new(n: i32) -> Option<Day>
        ensures found { IsSome result ↔ IsDayNumber n }
        ensures number { IfSome result (λ day. pos day ≡ n) }
    {
        if (0..=84_005).contains(&n) {
            Some(Day(n))
        } else {
            None
        }
    }

    /// The day's number, from 0 to 84,005.
    pub fn get(&self) -> i32
        ensures number { result ≡ pos self.now }
        ensures range { self.now ≤ LAST_DAY }
    {
        self.0
    }
}
