//! The week of each student: the slots in which the sections that the student holds meet, and how many credits it has.
#![tactic(auto)]

mod calendar;
mod credits;
mod enrolled;
pub mod laws;
mod rows;
mod weeks;

pub use weeks::Weeks;
