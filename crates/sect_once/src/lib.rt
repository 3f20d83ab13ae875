//! One history of an object, in which each request number acts at most once. A front of it is acted again on an object of its
//! own.
#![tactic(auto)]

mod act;
mod again;
mod answer;
mod ask;
mod desk;
mod entry;
mod key;
mod object;
mod opening;
mod past;
mod places;
mod tally;
mod texts;

pub use again::replay;
pub use answer::{Answer, OpenFault, Seen};
pub use desk::Desk;
pub use entry::{AskedText, Entry, Note, Request};
pub use object::Object;
pub use sect_base::Chronicle;
pub use tally::Tally;
