//! Why a command is refused: the first condition that holds, in their order.
#![tactic(auto)]

mod held;
mod limit;
mod refuse;
mod registrar;
mod requests;
mod row;
mod student;
mod told;
mod unknown;
mod waiting;
mod want;
mod yours;

pub use refuse::refusal;
pub use waiting::ticket_of;
