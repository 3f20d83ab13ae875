//! What a clerk is shown of a history: what is wanted of each course, and the week of a student.
#![tactic(auto)]

mod courses;
mod demand;
pub mod examples;
mod hour;
mod hours;
mod rank;
mod shown;
mod week;

pub use hour::Hour;
pub use shown::{print_demand, print_timetable};
