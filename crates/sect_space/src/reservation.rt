// Changes of reservations.

ghost use Rattle.std.specs.Prelude.{◌≡◌, IfOk, OnErr};
ghost use Rattle.sect_model.specs.Fits.{Fits};
ghost use Rattle.sect_space.specs.Made.{Made, Unchanged, Taken, Ready};
ghost use Rattle.sect_space.specs.Parts.{roomed_of};

use crate::back::Back;
use crate::parts::Parts;
use sect_base::{Day, Memory, OfferingId, ReservationId};
use sect_model::Change;
use sect_reserve::Reservation;

impl Parts {
    /// Adds a reservation of a new id. Where memory runs out, nothing is changed.
    pub fn add_reservation(&mut self, row: Reservation) -> Result<Back, Memory>
        requires { Fits (roomed_of self.old).world (Change.Reserve row) }
        ensures ok { IfOk result (λ back. Made (roomed_of self.old) (roomed_of self.new) (Change.Reserve row) back) }
        ensures err { OnErr result (Unchanged (roomed_of self.old) (roomed_of self.new)) }
    {
        let back = Back::ReservationAdded(row.id, row.offering);
        self.reservations.insert(row)?;
        Ok(back)
    }

    /// Takes the reservation off again. It is there.
    pub fn take_reservation(&mut self, id: ReservationId, offering: OfferingId)
        requires { Ready (roomed_of self.old) (Back.ReservationAdded id offering) }
        ensures { Taken (roomed_of self.old) (roomed_of self.new) (Back.ReservationAdded id offering) }
    {
        let _ = offering;
        let _ = self.reservations.remove(id);
    }

    /// Removes a reservation that is there. It takes no memory.
    pub fn remove_reservation(&mut self, id: ReservationId) -> Back
        requires { Fits (roomed_of self.old).world (Change.Unreserve id) }
        ensures { Made (roomed_of self.old) (roomed_of self.new) (Change.Unreserve id) result }
    {
        let (place, row) = self.reservations.remove(id);
        Back::ReservationRemoved(place, row)
    }

    /// Puts a reservation back where it stood. There is room.
    pub fn put_reservation_back(&mut self, place: usize, row: Reservation)
        requires { Ready (roomed_of self.old) (Back.ReservationRemoved place row) }
        ensures { Taken (roomed_of self.old) (roomed_of self.new) (Back.ReservationRemoved place row) }
    {
        self.reservations.put_back(place, row);
    }

    /// Puts another expiry day, or none, in place of the old one. It takes no memory.
    pub fn put_expiry(&mut self, id: ReservationId, expiry: Option<Day>) -> Back
        requires { Fits (roomed_of self.old).world (Change.Expiry id expiry) }
        ensures { Made (roomed_of self.old) (roomed_of self.new) (Change.Expiry id expiry) result }
    {
        let offering = self.reservation_offering(id);
        let old = self.reservations.set_expiry(id, expiry);
        Back::ExpiryReplaced(id, offering, old)
    }

    /// Puts the old expiry day back. The reservation is there.
    pub fn restore_expiry(
        &mut self,
        id: ReservationId,
        offering: Option<OfferingId>,
        expiry: Option<Day>,
    )
        requires { Ready (roomed_of self.old) (Back.ExpiryReplaced id offering expiry) }
        ensures { Taken (roomed_of self.old) (roomed_of self.new) (Back.ExpiryReplaced id offering expiry) }
    {
        let _ = offering;
        let _ = self.reservations.set_expiry(id, expiry);
    }
}
