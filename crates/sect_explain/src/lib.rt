//! Why a search is blocked, in words.
#![tactic(auto)]

pub mod examples;
mod line;
mod moves;
mod reason;
mod reply;
mod tree;

pub use reply::explain_reply;
pub use tree::explain;
