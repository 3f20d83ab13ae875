//! What holds throughout a history of the machine. It has no behaviour: the functions carry the laws.
#![tactic(auto)]

pub mod laws;
