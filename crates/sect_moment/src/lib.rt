//! The world as the student of a move meets it behind choices, and the first rule that a decision breaks there.
#![tactic(auto)]

mod config;
mod course;
mod ground;
mod held;
mod lent;
mod moment;
mod overlap;
mod place;
mod reservation;
mod reserved;
mod section;

pub use ground::{Ground, ground_of};
pub use lent::{LentMove, LentWant};
pub use moment::Moment;
pub use place::subparts_in;
