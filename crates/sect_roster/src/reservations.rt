// The reservations of a world.

ghost use Rattle.std.specs.Prelude.{
  ◌≡◌,
  ◌<◌,
  ◌≤◌,
  ◌+◌,
  ◌-◌,
  ◌==◌,
  ℕ,
  not,
  [],
  filter,
  find,
  map,
  position,
  option_copied,
  Some,
  IsSome,
  IsNone,
  IfOk,
  IsOk,
  OnOk,
  OnErr,
};
ghost use Rattle.std.specs.Option.{option_map};
ghost use Rattle.sect_people.specs.Order.{sorted_by};
ghost use Rattle.sect_model.specs.World.{put_behind};
ghost use Rattle.sect_roster.specs.Slots.{rows_of, number_of, put_among, capacity_of};
ghost use Rattle.sect_model.specs.Change.{expire};

use crate::listing::Listing;
use sect_base::{Day, Memory, OfferingId, ReservationId};
use sect_reserve::Reservation;
use std::alloc::Global;
use std::marker::Model;

/// The reservations in order of offering, and for one offering in the order in which they came, no
/// two with one id. They are seen as that list, with the room of each offering and of the index of ids.
pub struct Reservations {
    listing: Listing<Reservation>,
}

/// It is written out, so that a caller does not prove again how each part is dropped.
impl Drop for Reservations {
    fn drop(self) {
        let Reservations { listing: _ } = self;
    }
}

impl Model for Reservations {
    ghost use Rattle.sect_reserve.specs.declared.row.Reservation.{Reservation as Value_of};
    ghost use Rattle.sect_roster.specs.Listed.{Listed};

    ghost Value = { Listed Value_of };

    ghost view = { λ r. r.listing };
}

impl Reservations {
    /// No reservations. It takes no memory.
    pub fn empty(alloc: Global) -> Reservations
        ensures { result ≡ record { items = []; rooms = []; spare = 0 } }
    {
        Reservations {
            listing: Listing::empty(alloc),
        }
    }

    /// The reservations of an offering, the earliest first. It takes no memory.
    pub fn of_offering(&self, offering: OfferingId) -> &[Reservation]
        ensures { result.now ≡ filter (λ r. r.offering.0 == offering.0) self.now.items }
    {
        self.listing.of_key(offering.0)
    }

    /// The reservation of an id, None exactly where it is unknown. It takes no memory.
    pub fn get(&self, id: ReservationId) -> Option<&Reservation>
        ensures { option_copied result ≡ find (λ r. r.id.0 == id.0) self.now.items }
    {
        self.listing.get(id.0)
    }

    /// The ids of all reservations, in rising order.
    pub fn ids(&self, alloc: Global) -> Result<Vec<ReservationId>, Memory>
        ensures { IfOk result (λ ids. ids.items ≡ map (λ r. r.id) (sorted_by (λ r. r.id.0) self.now.items)) }
    {
        let mut ids = Vec::new(alloc);
        for mark in self.listing.marks() {
            ids.push(ReservationId(mark.id))?;
        }
        Ok(ids)
    }

    /// Makes room for `n` reservations more of an offering. Where memory runs out, the reservations are as before.
    pub fn reserve(&mut self, offering: OfferingId, n: usize) -> Result<(), Memory>
        ensures items { self.new.items ≡ self.old.items }
        ensures room { OnOk result (n ≤ capacity_of self.new.rooms offering.0 - number_of (λ r. r.offering.0) offering.0 self.old.items) }
        ensures spare { OnOk result (n ≤ self.new.spare) }
        ensures room_grows { (m : ℕ) → capacity_of self.old.rooms m ≤ capacity_of self.new.rooms m }
        ensures spare_grows { self.old.spare ≤ self.new.spare }
        ensures enough { n ≤ capacity_of self.old.rooms offering.0 - number_of (λ r. r.offering.0) offering.0 self.old.items → n ≤ self.old.spare
            → IsOk result }
    {
        self.listing.reserve(offering.0, n)
    }

    /// Gives an offering a slot, with no room, where there is none: so offerings that come in rising order stand behind one
    /// another. Where memory runs out, nothing is changed.
    pub fn add_slot(&mut self, offering: OfferingId) -> Result<(), Memory>
        ensures items { self.new.items ≡ self.old.items }
        ensures rooms { (m : ℕ) → capacity_of self.old.rooms m ≤ capacity_of self.new.rooms m }
        ensures spare { self.new.spare ≡ self.old.spare }
    {
        self.listing.add_slot(offering.0)
    }

    /// Puts a reservation behind the others of its offering. Where memory runs out, the reservations
    /// are as before.
    pub fn insert(&mut self, row: Reservation) -> Result<(), Memory>
        requires { IsNone (find (λ r. r.id.0 == row.id.0) self.old.items) }
        ensures ok { OnOk result (self.new.items ≡ put_behind (λ r. r.offering.0) row self.old.items) }
        ensures err { OnErr result (self.new.items ≡ self.old.items) }
        ensures rooms { (m : ℕ) → capacity_of self.old.rooms m ≤ capacity_of self.new.rooms m }
        ensures spare { self.old.spare ≤ self.new.spare + 1 }
        ensures grows { OnErr result (self.old.spare ≤ self.new.spare) }
        ensures enough { number_of (λ r. r.offering.0) row.offering.0 self.old.items < capacity_of self.old.rooms row.offering.0 → 0 < self.old.spare
            → IsOk result }
    {
        self.listing.insert(row)
    }

    /// Takes the reservation of an id out, and gives it back with its place among those of its offering. It
    /// takes no memory.
    pub fn remove(&mut self, id: ReservationId) -> (usize, Reservation)
        requires { IsSome (find (λ r. r.id.0 == id.0) self.old.items) }
        ensures row { Some result.1 ≡ find (λ r. r.id.0 == id.0) self.old.items }
        ensures id { result.1.id ≡ id }
        ensures place { Some result.0 ≡ position (λ r. r.id.0 == id.0) (rows_of (λ r. r.offering.0) result.1.offering.0 self.old.items) }
        ensures rest { self.new.items ≡ filter (λ r. not (r.id.0 == id.0)) self.old.items }
        ensures gone { IsNone (find (λ r. r.id.0 == id.0) self.new.items) }
        ensures back { self.old.items ≡ put_among (λ r. r.offering.0) result.0 result.1 self.new.items }
        ensures within { result.0 ≤ number_of (λ r. r.offering.0) result.1.offering.0 self.new.items }
        ensures rooms { self.new.rooms ≡ self.old.rooms }
        ensures room { number_of (λ r. r.offering.0) result.1.offering.0 self.old.items ≤ capacity_of self.old.rooms result.1.offering.0 }
        ensures spare { self.new.spare ≡ self.old.spare + 1 }
    {
        self.listing.remove(id.0)
    }

    /// Puts a reservation back where it stood among those of its offering. It takes no memory.
    pub fn put_back(&mut self, place: usize, row: Reservation)
        requires room { number_of (λ r. r.offering.0) row.offering.0 self.old.items < capacity_of self.old.rooms row.offering.0 }
        requires spare { 0 < self.old.spare }
        requires within { place ≤ number_of (λ r. r.offering.0) row.offering.0 self.old.items }
        requires absent { IsNone (find (λ r. r.id.0 == row.id.0) self.old.items) }
        ensures items { self.new.items ≡ put_among (λ r. r.offering.0) place row self.old.items }
        ensures rooms { self.new.rooms ≡ self.old.rooms }
        ensures spare { self.new.spare + 1 ≡ self.old.spare }
    {
        self.listing.put_back(place, row);
    }

    /// Sets another expiry day of a reservation, and gives the old one back. It takes no memory.
    pub fn set_expiry(&mut self, id: ReservationId, expiry: Option<Day>) -> Option<Day>
        requires { IsSome (find (λ r. r.id.0 == id.0) self.old.items) }
        ensures given_back { Some result ≡ option_map (λ r. r.expiry) (find (λ r. r.id.0 == id.0) self.old.items) }
        ensures changed { self.new ≡ record self.old { items = map (expire id expiry) self.old.items } }
    {
        self.listing.set_expiry(id, expiry)
    }
}
