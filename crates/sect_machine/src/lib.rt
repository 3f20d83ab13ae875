//! The sectioning machine: a command acts on a day, and the wait-list settles.
#![tactic(auto)]

mod act;
mod change;
mod day;
mod flipping;
pub mod laws;
mod limits;
mod lines;
mod machine;
mod marking;
mod moves;
mod object;
mod opened;
mod place;
mod plan;
mod recheck;
mod replies;
mod reserved;
mod rows;
mod state;
mod stepping;
mod survey;
mod told;
mod undo;
mod waits;

pub use machine::Machine;
pub use sect_command::{Command, Query, Reply, View};
pub use state::State;
pub use told::ToldStep;
