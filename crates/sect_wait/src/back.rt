// What is kept of a change of a queue so that it can be taken back.

use sect_model::Waiting;

/// A change of a queue that was made, with what is needed to take it back.
#[derive(Drop)]
pub enum QueueBack {
    /// The entry is the last, and has the ticket before the next.
    Joined,
    /// The place where the entry stood, and the entry.
    Left(usize, Waiting),
}
