// The one change of a row in its place: the expiry day of a reservation.

ghost use Rattle.std.specs.Prelude.{◌≡◌, ◌==◌, find, map, Some, IsSome};
ghost use Rattle.std.specs.Option.{option_map};
ghost use Rattle.sect_model.specs.Change.{expire};

use crate::listing::{Listing, first_of};
use sect_base::{Day, ReservationId};
use sect_reserve::Reservation;

impl Listing<Reservation> {
    /// Sets another expiry day of a reservation, and gives the old one back. It takes no memory.
    pub fn set_expiry(&mut self, id: ReservationId, expiry: Option<Day>) -> Option<Day>
        requires { IsSome (find (λ r. r.id.0 == id.0) self.old.items) }
        ensures given_back { Some result ≡ option_map (λ r. r.expiry) (find (λ r. r.id.0 == id.0) self.old.items) }
        ensures changed { self.new ≡ record self.old { items = map (expire id expiry) self.old.items } }
    {
        let offering = self.known_offering(id.0);
        let place = first_of(self.slots.rows_of(offering), id.0);
        let mut row = self.slots.remove(offering, place);
        let old = replace_expiry(&mut row, expiry);
        self.slots.put_back(place, row);
        old
    }
}

/// Another expiry day. The old one is given back.
fn replace_expiry(row: &mut Reservation, expiry: Option<Day>) -> Option<Day>
    ensures given_back { result ≡ row.old.expiry }
    ensures replaced { row.new ≡ record row.old { expiry = expiry } }
{
    std::mem::replace(&mut row.expiry, expiry)
}
