//! Lines, commands, replies and entry rows are read.
#![tactic(auto)]

mod commands;
mod fault;
mod laws;
mod line;
mod read_phrase;
mod read_rows;
mod read_want;
mod refusal;
mod reply;
mod request;
mod row;
mod verb;

pub use fault::WireFault;
pub use laws::{
    a_line_asks_one_request, a_printed_request_is_a_line_that_asks_it,
    a_printed_text_is_of_one_command, a_row_is_of_one_entry, a_text_is_of_one_reply,
    an_entry_has_one_row,
};
pub use line::{
    LineAsk, LineFront, behind_at, behind_day, read_command, read_line, read_line_command,
    read_line_front,
};
pub use reply::read_reply;
pub use row::{read_request, read_row};
pub use verb::{Verb, verb_of};
