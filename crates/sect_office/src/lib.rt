//! A desk that threads ask in turn, in one history.
#![tactic(auto)]

pub mod laws;
mod office;
mod work;

pub use office::{Office, OfficeOf};
pub use work::{Work, run_all};
