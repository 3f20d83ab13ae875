//! What leaves the outcome of a waiting entry's search as it is. It has no behaviour: the functions carry the laws.
#![tactic(auto)]

pub mod laws;
