// Why a line or a body isn't read.

ghost use Rattle.std.specs.Prelude.{◌≡◌};

use sect_words::Fault;

/// Why a line or a body isn't read.
#[derive(Clone, Copy, PartialEq, Eq, Debug)]
pub enum WireFault {
    /// The line is not of the grammar.
    BadLine,
    /// The caller and the number are there, and the next word is no verb.
    UnknownVerb,
    /// A body says no command: 0 where it is no JSON object, 1 where its verb is none, 2 for another cause. No line is
    /// told so.
    BadBody(u32),
    /// Want of memory.
    Memory,
}

impl From<Fault> for WireFault {
    ghost use Rattle.sect_read.specs.Faults.{line_fault};

    ghost from_gives = { λ f w. w ≡ line_fault f };

    fn from(fault: Fault) -> WireFault {
        match fault {
            Fault::Bad => WireFault::BadLine,
            Fault::Memory => WireFault::Memory,
        }
    }
}
