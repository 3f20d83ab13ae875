//! What a crash of its journal leaves of a desk. It has no behaviour: the functions carry the laws.
#![tactic(auto)]

pub mod laws;
