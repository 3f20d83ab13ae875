//! Many links, each served by a worker of its own, at one desk. What the answers on connections name: a law.
#![tactic(auto)]

mod collect;
mod places;
mod server;
mod serving;

pub use places::a_printed_place_is_its_row;
pub use server::{Back, Server, WorkerEnd};
pub use serving::{ServeEnd, serve};
