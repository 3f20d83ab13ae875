// The text of the day on which requests are asked, which is printed once.

ghost use Rattle.std.specs.Prelude.{◌≡◌};
ghost use Rattle.sect_text.specs.Rows.{day_part};

use sect_base::Day;
use sect_words::{put, put_day};
use std::marker::Model;

/// A day with its text and a space behind that. Contracts see the day.
#[derive(Drop)]
pub(crate) struct Dated {
    day: Day,
    text: [u8; 11],
}

impl Model for Dated {
    ghost use Rattle.std.specs.Prelude.{◌≡◌, ℕ};
    ghost use Rattle.sect_text.specs.Rows.{day_part};

    ghost Value = { ℕ };

    ghost view = { λ d. d.day };

    ghost invariant = { λ d. d.text ≡ day_part d.day };
}

/// The text of a day and a space.
fn text_of(day: Day) -> [u8; 11]
    ensures { result ≡ day_part day }
{
    let mut text = [0; 11];
    let space = put(b' ', &mut text, 11);
    let _start = put_day(day, &mut text, space);
    text
}

impl Dated {
    /// The day.
    pub(crate) fn of(day: Day) -> Dated
        ensures { result ≡ day }
    {
        Dated {
            day,
            text: text_of(day),
        }
    }

    /// The first day.
    pub(crate) fn first() -> Dated
        ensures { result ≡ 0 }
    {
        match Day::new(0) {
            Some(day) => Dated::of(day),
            None => unreachable!(),
        }
    }

    /// Turns to another day. Where it is the same, its text isn't printed again.
    #[inline(always)]
    pub(crate) fn turn_to(&mut self, day: Day)
        ensures { self.new ≡ day }
    {
        if self.day != day {
            *self = Dated::of(day);
        }
    }

    /// The text of the day and a space.
    #[inline(always)]
    pub(crate) fn text(&self) -> &[u8]
        ensures { result.now ≡ day_part self.now }
    {
        &self.text
    }
}
