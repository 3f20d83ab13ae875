//! Rows and replies both ways; the desk of a tally, asked alone, by threads, and until its log is full; and the real objects where
//! they fail: tests alone.
#![tactic(auto)]

#[cfg(test)]
mod tests;
