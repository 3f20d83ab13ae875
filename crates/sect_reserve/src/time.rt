// On which days a reservation is active.

ghost use Rattle.std.specs.Prelude.{◌≡◌};
ghost use Rattle.sect_reserve.specs.Audience.{active as is_active};
ghost use Rattle.sect_reserve.specs.Lasting.{lasts as is_lasting, begun as is_begun, ExpiryAlone};

use crate::row::Reservation;
use sect_base::Day;

/// From the first day, if there is one, up to and including the expiry day, if there is one. It
/// takes no memory.
pub fn active(r: &Reservation, day: Day) -> bool
    ensures { result ≡ is_active r.now day }
{
    has_begun(r, day) && lasts(r, day)
}

/// Whether the reservation has no expiry day, or the day is at most that one. Where it has no
/// first day either, this alone tells whether it is active. It takes no memory.
pub fn lasts(r: &Reservation, day: Day) -> bool
    ensures value { result ≡ is_lasting r.now day }
    ensures alone { ExpiryAlone r.now day }
{
    match r.expiry {
        Some(expiry) => day <= expiry,
        None => true,
    }
}

/// Whether the reservation's first day has come. One without a first day has begun.
fn has_begun(r: &Reservation, day: Day) -> bool
    ensures { result ≡ is_begun r.now day }
{
    match r.first {
        Some(first) => first <= day,
        None => true,
    }
}
