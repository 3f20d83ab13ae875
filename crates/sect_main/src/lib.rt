//! What the programs share: the numbers of standard input and output, the words of the command line, the keeper that they name,
//! and the end.
#![tactic(auto)]

mod end;
mod keepers;
mod standard;
mod words;

pub use end::{End, finish};
pub use keepers::keeper_of;
pub use standard::hold_standard_files;
pub use words::words_of;
