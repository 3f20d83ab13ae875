//! Lines, commands, replies, entry rows, bodies of JSON and answers as texts, both ways, and objects that are asked what texts
//! say.
#![tactic(auto)]

mod answer;
mod body;
mod field;
mod from_json;
mod law;
mod object;
mod verbs;

pub use answer::print_answer;
pub use body::read_body;
pub use law::{a_read_command_has_a_text, a_reply_stands_as_it_is, an_answer_is_read_again};
pub use object::TextObject;
pub use sect_read::{
    LineAsk, WireFault, a_line_asks_one_request, a_printed_request_is_a_line_that_asks_it,
    a_printed_text_is_of_one_command, a_row_is_of_one_entry, a_text_is_of_one_reply,
    an_entry_has_one_row, read_command, read_line, read_reply, read_request, read_row,
};
pub use sect_text::{
    copy_request, print_command, print_reply, print_request, print_row, print_told_reply,
};
