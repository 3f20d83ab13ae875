//! The search for the first allowed move, and the check of the tree that refutes every one.
#![tactic(auto)]

mod budget;
mod finding;
pub mod laws;
mod looks;
mod one;
mod searched;
mod verifying;
mod walk;
mod wants;

pub use budget::usual_budget;
pub use finding::{search, search_in, search_lent};
pub use one::{OneOutcome, search_one};
pub use sect_model::Outcome;
pub use sect_moment::{LentMove, LentWant};
pub use verifying::{verify, verify_in};
pub use wants::want_of;
