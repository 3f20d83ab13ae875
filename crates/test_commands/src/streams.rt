// Sources, sinks and clocks in memory.

use crate::keepers::number_alone;
use sect_base::{Day, Memory};
use sect_edge::{MemClock, MemSink, MemSource};
use std::alloc::Global;

/// A source of these bytes, of which a read gives so many at most. The read with this number, from 1, fails; 0 is none.
pub fn source_of(
    alloc: Global,
    bytes: &[u8],
    piece: usize,
    failing_read: u64,
) -> Result<MemSource, Memory> {
    let failing_reads = number_alone(alloc, failing_read)?;
    Ok(MemSource::new(bytes.to_vec(alloc)?, piece.max(1), failing_reads))
}

/// An empty sink with so much room, of which a write takes so many bytes at most. The write with this number, from 1, fails;
/// 0 is none.
pub fn sink_of(
    alloc: Global,
    room: usize,
    piece: usize,
    failing_write: u64,
) -> Result<MemSink, Memory> {
    let failing_writes = number_alone(alloc, failing_write)?;
    MemSink::new(alloc, room, piece.max(1), failing_writes)
}

/// A clock that gives 2025-09-01.
pub fn clock(alloc: Global) -> Result<MemClock, Memory> {
    let day = Day::new(20_332).ok_or(Memory)?;
    Ok(MemClock::new(day, Vec::new(alloc)))
}
