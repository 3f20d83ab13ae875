//! Requests over HTTP, asked of an office over one connection after another.
#![tactic(auto)]

mod hear;
mod heard;
mod say;
mod sitting;
mod tell;
mod turn;

pub use sitting::{Bench, session, talk};
