// The parts of a world, each a list with its index. Which worlds there can be is told where the parts are one.

use sect_base::Day;
use sect_catalog::Catalogue;
use sect_people::People;
use sect_roster::{Reservations, Restrictions, Roster};

/// The parts of a world.
pub struct Parts {
    pub catalogue: Catalogue,
    pub people: People,
    pub reservations: Reservations,
    pub restrictions: Restrictions,
    pub roster: Roster,
    pub day: Day,
}

/// It is written out, so that a caller does not prove again how each part is dropped.
impl Drop for Parts {
    fn drop(self) {
        let Parts {
            catalogue: _,
            people: _,
            reservations: _,
            restrictions: _,
            roster: _,
            day: _,
        } = self;
    }
}
