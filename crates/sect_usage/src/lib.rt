//! The words of the command line, and what they ask for.
#![tactic(auto)]

mod help;
mod items;
pub mod laws;
mod needed;
mod needing;
mod number;
mod options;
mod program;
mod verb;
mod words;

pub use help::{help_of, version};
pub use items::{next_positional, value as option_value};
pub use needed::{Needs, Paths, WordFault};
pub use needing::{needs, paths};
pub use number::id;
pub use options::{alone, is_keeper, only};
pub use program::{Commands, read_program};
pub use verb::{Topic, Verb};
pub use words::{Words, read_words};
