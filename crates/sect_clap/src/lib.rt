//! The parser of `clap` beside the desk's own reader: it reads the same words, and what it finds is held against what the reader found.
#![tactic(auto)]

mod command;
mod held;

pub use held::read_again;
