// Keepers in memory.

use sect_base::Memory;
use sect_edge::MemKeeper;
use std::alloc::Global;

/// The calls of a keeper that fail, each counted from 1; 0 for none.
#[derive(Clone, Copy)]
pub struct Failing {
    /// The append.
    pub append: u64,
    /// The call by which rows are counted or read.
    pub row: u64,
}

/// No call fails.
pub const NONE_FAILS: Failing = Failing { append: 0, row: 0 };

/// The number alone.
pub fn number_alone(alloc: Global, number: u64) -> Result<Vec<u64>, Memory> {
    let mut numbers = Vec::new(alloc);
    numbers.push(number)?;
    Ok(numbers)
}

/// The rows of a text, one a line.
fn rows_of(alloc: Global, text: &str) -> Result<Vec<Vec<u8>>, Memory> {
    let mut rows = Vec::new(alloc);
    for row in text.lines() {
        rows.push(row.as_bytes().to_vec(alloc)?)?;
    }
    Ok(rows)
}

/// A keeper with the rows of a text, one a line, of which these calls fail.
pub fn keeper_of(alloc: Global, rows: &str, failing: Failing) -> Result<MemKeeper, Memory> {
    Ok(MemKeeper::with_reads(
        rows_of(alloc, rows)?,
        number_alone(alloc, failing.append)?,
        number_alone(alloc, failing.row)?,
    ))
}
