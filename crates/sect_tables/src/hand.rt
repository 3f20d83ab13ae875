// What is kept of a table between its rows.

use crate::offering::OpenOffering;
use crate::requests::OpenRequests;
use sect_command::Command;

/// Which header a table has.
#[derive(Clone, Copy, PartialEq, Eq)]
pub enum Header {
    /// The table's own.
    Whole,
    /// The old one of reservations, of which none has a first day.
    WithoutFirst,
}

/// The command whose rows may go on, with the number of its first row.
#[derive(Drop)]
pub struct AtHand {
    pub first: u64,
    pub group: Group,
}

/// What the rows of a command say so far.
#[derive(Drop)]
pub enum Group {
    /// A command of one row.
    Row(Command),
    /// An offering.
    Offering(OpenOffering),
    /// A student's requests.
    Requests(OpenRequests),
}
