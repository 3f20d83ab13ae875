//! The texts of commands, replies and entry rows, and how they are printed.
#![tactic(auto)]

mod command_text;
mod line_text;
mod phrase;
mod reply_text;
mod row_text;
mod row_words;
mod told_row;
mod want_text;

pub use command_text::print_command;
pub use reply_text::print_reply;
pub use row_text::{is_marked, print_row};
pub use told_row::{copy_request, print_request, print_told_reply};
