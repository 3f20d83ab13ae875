//! The words of a line of a script, each held against the form that is expected where it stands, and what is said of the
//! first that hasn't its form.
#![tactic(auto)]

mod commands;
mod complaint;
mod form;
mod groups;
pub mod laws;
mod line;
mod text;
mod walk;

pub use complaint::print_complaint;
