//! The keepers of the program: in a database of SQLite, in a journal, or none, by which no row is kept. With them come the
//! real objects of `sect_system`, its links over TCP among them.
#![tactic(auto)]

mod any;
mod database;
mod window;

pub use any::AnyKeeper;
pub use database::SqliteKeeper;
pub use sect_system::{FileDisk, RealClock, StdSink, StdSource, TcpLink, ToldKeeper, ToldSource};
