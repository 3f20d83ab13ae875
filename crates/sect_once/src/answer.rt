// What a request, a find and an opening answer.
ghost use Rattle.std.specs.Prelude.{◌≡◌};
ghost use Rattle.sect_once.specs.declared.answer.OpenFault.TheVariants as Shut;
ghost use Rattle.sect_once.specs.Opening.{open_fault};

use sect_base::Memory;
use sect_edge::KeepFault;

/// What a request is answered.
#[derive(Drop)]
pub enum Answer<R> {
    /// The entry at this place has the request's id, its command and this reply.
    Done { place: u32, reply: R },
    /// The entry at this place has the request's id and another command.
    NumberReused(u32),
    /// The id is new and the log is full.
    LogFull,
    /// The keeper failed to keep the entry, and the object is as before.
    KeeperFault,
    /// Memory was wanted, and nothing has changed within the run.
    Memory,
}

/// What the log has of an id and a command.
#[derive(Clone, Copy, PartialEq, Eq, Debug)]
pub enum Seen {
    /// No entry has the id.
    New,
    /// The entry at this place has the id and the command.
    Place(u32),
    /// The entry at this place has the id and another command.
    Reused(u32),
}

/// Why a keeper doesn't open.
#[derive(Clone, Copy, PartialEq, Eq, Debug)]
pub enum OpenFault {
    /// The keeper failed.
    KeeperFault,
    /// The row with this number, from 0, is the first that is missing, no entry, of an id that acted before, of
    /// another reply than the object's, or behind a full log.
    BadEntry(u32),
    /// Memory was wanted.
    Memory,
}

impl From<KeepFault> for OpenFault {
    ghost from_gives = { λ fault e. e ≡ open_fault fault };

    fn from(fault: KeepFault) -> Self {
        match fault {
            KeepFault::Failed => OpenFault::KeeperFault,
            KeepFault::Memory => OpenFault::Memory,
        }
    }
}

impl From<Memory> for OpenFault {
    ghost from_gives = { λ _ e. e ≡ Shut.Memory };

    fn from(_: Memory) -> Self {
        OpenFault::Memory
    }
}
