//! What a query is answered, from the world and those who wait.
#![tactic(auto)]

mod look;
mod open;
mod roll;
mod rows;
mod schedule;
mod unmet;
mod waiting;

pub use look::view;
