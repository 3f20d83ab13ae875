//! Every command of the clerk: what is done for its words. Requests in lines are answered as a desk over a keeper would answer
//! them now, and why the search at a place was blocked is told in words. Nothing is added to a history. The log of a history is
//! each request as a script line on its day, and behind it, as comments, its reply and whom settling placed; the whole log, asked
//! of an empty desk, makes the same history.
#![tactic(auto)]

mod checker;
mod comment;
mod explanation;
pub mod laws;
mod lines;
mod log;
mod naming;
mod over;
mod runs;
mod showing;
mod top;
pub mod tried;
mod trier;

pub use checker::{Checker, check, what_is_said_is_of_refused_lines};
pub use explanation::Explanation;
pub use log::Log;
pub use runs::try_lines;
pub use showing::{Demand, Timetable};
pub use top::clerk;
pub use trier::Trier;
