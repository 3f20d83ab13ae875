// What a table gives, and why it isn't read further.

use sect_command::Command;

/// A command of a table, with the number of its first row. The header is row 1.
#[derive(Drop)]
pub struct Given {
    pub row: u64,
    pub command: Command,
}

/// Why a table isn't read further.
#[derive(Clone, Copy, PartialEq, Eq, Debug)]
pub enum CsvFault {
    /// The first row that isn't in its form, and its first field that isn't, from 1; 0 where the number of fields is
    /// another.
    BadRow { row: u64, field: u32 },
    /// Want of memory.
    Memory,
}
