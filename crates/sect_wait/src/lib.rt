//! Who waits: entries in order of ticket, and settling, which places them until none can be placed.
#![tactic(auto)]

mod back;
mod by_student;
mod courses;
mod entry;
mod index;
pub mod laws;
mod leaving;
mod marking;
mod marks;
mod next;
mod noting;
mod opened;
mod place;
mod queue;
mod settling;
mod sought;
mod tickets;
mod undo;

pub use back::QueueBack;
pub use leaving::leave_course;
pub use marking::{mark, mark_enrolment, mark_leaving, mark_noted, mark_ticket};
pub use marks::Marks;
pub use opened::Opened;
pub use queue::Queue;
pub use sect_model::{Placed, Waiting};
pub use settling::{settle, settle_opened};
pub use undo::QueueUndo;
