// Whether a level is full, and whether what is left is reserved.

ghost use Rattle.std.specs.Prelude.{◌≡◌, ◌==◌, ◌&&◌, not, int_le, pos, IsTrue, Some, option_copied};
ghost use Rattle.std.specs.List.{list_any};
ghost use Rattle.sect_catalog.specs.Catalogue.{places as limit_places};
ghost use Rattle.sect_model.specs.Counts.{permits_over, count_of};
ghost use Rattle.sect_model.specs.Allowed.{reservations_of};
ghost use Rattle.sect_model.specs.Space.{places_at, names as level_named, named_by, space_of};
ghost use Rattle.sect_model.specs.Rules.{is_full as full_at, is_kept as kept_at};
ghost use Rattle.sect_moment.specs.Reserved.{held_back as back_at, takes_all as all_taken, are_own};

use crate::moment::Moment;
use sect_base::{Level, Limit, OfferingId};
use sect_reserve::{Reservation, active};
use sect_space::names;

/// The number of a limit.
pub fn limited(limit: Limit) -> Option<u64>
    ensures { result ≡ limit_places limit }
{
    match limit {
        Limit::Unlimited => None,
        Limit::Places(places) => Some(u64::from(places)),
    }
}

/// What closes a level to a choice.
#[derive(Clone, Copy, PartialEq, Eq)]
pub struct Closed {
    /// It has a limit, and no place is left.
    pub full: bool,
    /// Places are left, all of them reserved, and not for the reservation of the choice.
    pub reserved: bool,
}

const OPEN: Closed = Closed {
    full: false,
    reserved: false,
};

impl Moment<'_> {
    /// Whether a level with so many places, or with no limit, has no place left.
    #[inline(always)]
    pub(crate) fn is_full(&self, level: Level, places: Option<u64>) -> bool
        requires { places ≡ places_at self.now.at level }
        ensures { result ≡ full_at self.now.at level }
    {
        match places {
            Some(places) => places <= self.count(level),
            None => false,
        }
    }

    /// What a reservation holds back at the level, None where that is all.
    fn held_back(&self, r: &Reservation, level: Level) -> Option<u64>
        ensures { result ≡ back_at self.now.at level r.now }
    {
        if !active(r, self.day()) || !names(r, level) {
            return Some(0);
        }
        let limit = limited(r.limit)?;
        Some(limit.saturating_sub(self.used(r.id)))
    }

    /// Whether a level with so many places, of this offering with these reservations, has no unreserved space.
    #[inline(always)]
    fn is_taken(
        &self,
        offering: OfferingId,
        rows: &[Reservation],
        level: Level,
        places: u64,
        count: u64,
    ) -> bool
        requires own { IsTrue (are_own self.now.at offering level) }
        requires rows { rows.now ≡ reservations_of self.now.at offering }
        requires count { count ≡ count_of self.now.at level }
        ensures { result ≡ int_le (space_of self.now.at level places) (pos 0) }
    {
        let _ = offering;
        self.takes_all(rows, level, places.saturating_sub(count))
    }

    /// Whether the reservations hold back all of so many places that are left at the level. Where there are none, nothing is
    /// called.
    #[inline(always)]
    fn takes_all(&self, rows: &[Reservation], level: Level, left: u64) -> bool
        ensures { result ≡ all_taken self.now.at level left rows.now }
    {
        if rows.is_empty() {
            return left == 0;
        }
        self.takes_each(rows, level, left)
    }

    /// Whether the reservations, one after another, hold back all of so many places that are left at the level.
    fn takes_each(&self, rows: &[Reservation], level: Level, places: u64) -> bool
        ensures { result ≡ all_taken self.now.at level places rows.now }
    {
        let mut left = places;
        for r in rows {
            match self.held_back(r, level) {
                Some(places) => left = left.saturating_sub(places),
                None => return true,
            }
        }
        left == 0
    }

    /// What closes a level of this offering, with so many places, to a choice by a reservation that doesn't permit over
    /// limit, or by none.
    #[inline(always)]
    fn closed_in(
        &self,
        offering: OfferingId,
        rows: &[Reservation],
        r: Option<&Reservation>,
        level: Level,
        places: u64,
    ) -> Closed
        requires own { IsTrue (are_own self.now.at offering level) }
        requires rows { rows.now ≡ reservations_of self.now.at offering }
        requires places { places_at self.now.at level ≡ Some places }
        ensures full { result.full ≡ full_at self.now.at level }
        ensures reserved { result.reserved ≡ kept_at self.now.at (option_copied r.entry) level }
    {
        let count = self.count(level);
        let full = places <= count;
        Closed {
            full,
            reserved: !full
                && !is_named_by(r, level)
                && self.is_taken(offering, rows, level, places, count),
        }
    }

    /// What closes a level of this offering, with so many places or with no limit, to a choice by the reservation, or by
    /// none. Its enrolments are asked for once.
    #[inline(always)]
    pub(crate) fn closed(
        &self,
        offering: OfferingId,
        rows: &[Reservation],
        r: Option<&Reservation>,
        level: Level,
        places: Option<u64>,
    ) -> Closed
        requires own { IsTrue (are_own self.now.at offering level) }
        requires rows { rows.now ≡ reservations_of self.now.at offering }
        requires places { places ≡ places_at self.now.at level }
        ensures full { result.full ≡ not (permits_over (option_copied r.entry)) && full_at self.now.at level }
        ensures reserved { result.reserved ≡ not (permits_over (option_copied r.entry)) && kept_at self.now.at (option_copied r.entry) level }
    {
        if is_over(r) {
            return OPEN;
        }
        match places {
            Some(places) => self.closed_in(offering, rows, r, level, places),
            None => OPEN,
        }
    }
}

/// Whether the reservation, if there is one, names the level.
fn is_named_by(r: Option<&Reservation>, level: Level) -> bool
    ensures { result ≡ named_by (option_copied r.entry) level }
{
    match r {
        Some(r) => names(r, level),
        None => false,
    }
}

/// Whether there is a reservation, and it permits over limit.
pub fn is_over(r: Option<&Reservation>) -> bool
    ensures { result ≡ permits_over (option_copied r.entry) }
{
    match r {
        Some(r) => r.over,
        None => false,
    }
}
