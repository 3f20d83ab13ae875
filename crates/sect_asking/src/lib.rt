//! Requests in lines, asked of a desk over a keeper: the lines of their answers, and a run over a source.
#![tactic(auto)]

mod answer;
mod asker;
mod dated;
mod runs;

pub use answer::print_answer;
pub use asker::{Asker, asked_on, is_passed_over, read_request};
pub use runs::{run, shut_status};
