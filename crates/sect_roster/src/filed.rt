// What lists are ordered by: the offering of a row, the student of an enrolment, the id of a mark.

ghost use Rattle.std.specs.Prelude.{◌≡◌, ℕ};

use crate::mark::Mark;
use sect_model::Enrolment;
use sect_reserve::{Reservation, Restriction};

/// An element of a list that stands in order of a number.
pub trait Keyed {
    ghost key_of: { Self → ℕ };

    /// The number by which the list is ordered.
    fn key(&self) -> u32
        ensures { result ≡ key_of self.now };
}

/// A row of an offering, with an id of its own.
pub trait Filed: Keyed + Drop {
    ghost id_of: { Self → ℕ };

    /// The row's id.
    fn id(&self) -> u32
        ensures { result ≡ id_of self.now };
}

impl Keyed for Mark {
    ghost key_of = { λ m. m.id };

    fn key(&self) -> u32 {
        self.id
    }
}

impl Keyed for Enrolment {
    ghost key_of = { λ e. e.student.0 };

    fn key(&self) -> u32 {
        self.student.0
    }
}

impl Keyed for Reservation {
    ghost key_of = { λ r. r.offering.0 };

    fn key(&self) -> u32 {
        self.offering.0
    }
}

impl Filed for Reservation {
    ghost id_of = { λ r. r.id.0 };

    fn id(&self) -> u32 {
        self.id.0
    }
}

impl Keyed for Restriction {
    ghost key_of = { λ r. r.offering.0 };

    fn key(&self) -> u32 {
        self.offering.0
    }
}

impl Filed for Restriction {
    ghost id_of = { λ r. r.id.0 };

    fn id(&self) -> u32 {
        self.id.0
    }
}
