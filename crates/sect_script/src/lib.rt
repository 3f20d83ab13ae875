//! Lines out of a source in pieces, the loop that answers them, writing to a sink, and how the desk ends.
#![tactic(auto)]

mod reader;
mod script;
mod status;
mod write;

pub use reader::{LineEnd, LineError, LineReader};
pub use script::{Handler, LineFault, RunEnd, run_lines};
pub use status::{Status, number_of, print_status, status_of};
pub use write::{Unwritten, gather, say, write_all, write_out};
