//! The world of the desk: its lists, what is counted in them, and the changes of it with their undoing.
#![tactic(auto)]

mod apply;
mod back;
mod change;
mod count;
mod counting;
mod enrolment;
mod holds;
pub mod laws;
mod mark;
mod numbered;
mod offering;
mod parts;
mod reservation;
mod restriction;
mod space;
mod student;
mod undo;
mod world;

pub use back::{Back, Mark};
pub use holds::has_course;
pub use sect_model::{Change, Enrolment};
pub use space::{names, offering_places};
pub use undo::Undo;
pub use world::World;
