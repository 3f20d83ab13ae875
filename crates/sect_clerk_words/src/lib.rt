//! The words of the clerk's command line, and what they ask for.
#![tactic(auto)]

mod help;
pub mod laws;
mod needing;
mod verb;
mod words;

pub use help::{VERSION, help_of};
pub use needing::needs;
pub use sect_usage::read_program;
pub use verb::{Topic, Verb};
pub use words::Words;
