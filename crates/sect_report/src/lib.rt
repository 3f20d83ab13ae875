//! The reports that a department reads: the text of a view, and the lines of which texts are made.
#![tactic(auto)]

mod answer;
mod line;
mod open;
mod people;
mod printed;

pub use answer::{print_unknown, report};
pub use line::{Word, print_line};
pub use printed::{Printed, print_list};
