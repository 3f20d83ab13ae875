//! The real objects of the system behind the traits of the outside, with connections over TCP. Each is a few lines over one call
//! of the system, and counts the failures that it answers.
#![tactic(auto)]

mod clock;
mod disk;
mod link;
mod progress;
mod sink;
mod source;
mod tcp_sink;
mod tcp_source;
mod told;

pub use clock::RealClock;
pub use disk::FileDisk;
pub use link::{TcpLink, links};
pub use sink::StdSink;
pub use source::StdSource;
pub use tcp_sink::TcpSink;
pub use tcp_source::TcpSource;
pub use told::{ToldKeeper, ToldSource};
