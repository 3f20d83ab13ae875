//! What the path and the body of a request ask for, and what it is answered, without a byte of HTTP read or written.
#![tactic(auto)]

mod doing;
mod errand;
mod read;
mod routes;
mod said;
mod target;

pub use doing::act;
pub use errand::{Errand, read_errand};
pub use routes::Routes;
pub use said::{json_page, put};
pub use target::Target;
