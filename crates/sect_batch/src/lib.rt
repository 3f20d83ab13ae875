//! Batches: the course requests of students, each in turn.
#![tactic(auto)]

mod answering;
mod batching;
mod lines;

pub use batching::batch;
pub use lines::is_unmet;
pub use sect_command::{Line, LineResult};
