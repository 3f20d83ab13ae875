//! The best whole schedule of a student's course requests.
#![tactic(auto)]

pub mod laws;
mod line;
mod planned;
mod schedule;
mod wants;

pub use line::{PlanLine, PlanResult, print_plan};
pub use schedule::{best, best_in};
