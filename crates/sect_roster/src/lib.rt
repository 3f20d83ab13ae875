//! Rows in slots, those of each number by themselves, and the lists of a world that are filed by offering: its reservations and
//! restrictions. The roster of a world as the enrolments of each student by itself: an enrolment moves those of its own student
//! alone. What is told of a list of enrolments.
#![tactic(auto)]

mod expiry;
mod filed;
pub mod laws;
mod listing;
mod mark;
mod marks;
mod rank;
mod reservations;
mod restrictions;
mod room;
mod roster;
pub mod rostered;
mod slot;
mod slots;

pub use filed::Keyed;
pub use reservations::Reservations;
pub use restrictions::Restrictions;
pub use roster::Roster;
pub use slots::Slots;
