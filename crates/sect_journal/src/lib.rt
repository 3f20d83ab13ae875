//! A keeper of rows on a disk, which loses no acknowledged row in a crash at any moment.
#![tactic(auto)]

mod disk;
mod gate;
mod journal;
mod keeper;
mod law;
mod memory;
mod open;
mod through;
mod window;

pub use disk::{Disk, DiskFault};
pub use journal::{Journal, JournalFault};
pub use law::no_acknowledged_row_is_lost;
pub use memory::{DiskCall, MemDisk};
