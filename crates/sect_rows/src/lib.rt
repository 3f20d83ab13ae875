//! That each request with a text gets an entry that has a row.
#![tactic(auto)]

pub mod laws;
