// What a crash leaves.

use crate::disks::on_disk::{Ended, disk_of, put_all};
use sect_base::Memory;
use sect_journal::{Disk, DiskCall, Journal, MemDisk};
use std::alloc::Global;

/// What a crash leaves: what is durable, what a read gives, and marks in the place of what was written, 1 and another.
const PICKS: [u64; 4] = [0, 1, 257, 2];

/// Puts what each image opens to that a crash leaves after each call from a number on behind the text.
pub fn put_crashes(
    alloc: Global,
    ended: &Ended,
    line: &str,
    into: &mut String,
) -> Result<(), Memory> {
    let calls = ended.disk.calls();
    write!(into, "{} calls", calls.len())?;
    let first = line.parse::<usize>().unwrap_or(0);
    for count in first..calls.len() {
        put_crash(alloc, ended, &calls[..count], into)?;
    }
    into.push_str("\nend:")?;
    put_images(alloc, &ended.disk, into)
}

/// The same of a crash after these calls.
fn put_crash(
    alloc: Global,
    ended: &Ended,
    calls: &[DiskCall],
    into: &mut String,
) -> Result<(), Memory> {
    write!(into, "\n{}:", calls.len())?;
    let mut disk = disk_of(alloc, &ended.bytes, &ended.fail)?;
    put_stopped(alloc, calls, &mut disk, into)
}

/// The same on a disk that had no calls yet.
fn put_stopped(
    alloc: Global,
    calls: &[DiskCall],
    disk: &mut MemDisk,
    into: &mut String,
) -> Result<(), Memory> {
    repeat(alloc, calls, disk)?;
    put_images(alloc, disk, into)
}

/// Makes these calls again.
fn repeat(alloc: Global, calls: &[DiskCall], disk: &mut MemDisk) -> Result<(), Memory> {
    for call in calls {
        match call {
            DiskCall::Wrote(at, piece) => write(*at, piece, disk),
            DiskCall::Tore(at, size) => {
                let piece = zeros(alloc, *size)?;
                write(*at, &piece, disk);
            }
            DiskCall::Synced => {
                let _ = disk.sync();
            }
            DiskCall::Looked => {
                let _ = disk.size();
            }
        }
    }
    Ok(())
}

/// A write within the bytes, whose answer the record of calls has.
fn write(at: u64, piece: &[u8], disk: &mut MemDisk) {
    if at <= disk.seen().len() as u64 {
        let _ = disk.write_at(at, piece);
    }
}

/// So many zeros, at most 1,000.
fn zeros(alloc: Global, size: u64) -> Result<Vec<u8>, Memory> {
    let mut piece = Vec::new(alloc);
    for _ in 0..size.min(1_000) {
        piece.push(0)?;
    }
    Ok(piece)
}

/// The rows of each image, a bar behind each.
fn put_images(alloc: Global, disk: &MemDisk, into: &mut String) -> Result<(), Memory> {
    for pick in PICKS {
        put_image(alloc, disk.image(pick)?, into)?;
        into.push_str(" |")?;
    }
    Ok(())
}

/// The rows of the journal of a disk with these bytes.
fn put_image(alloc: Global, bytes: Vec<u8>, into: &mut String) -> Result<(), Memory> {
    match opened(alloc, bytes) {
        Ok(mut journal) => put_all(alloc, &mut journal, into),
        Err(_) => Ok(into.push_str(" fault")?),
    }
}

/// The journal of a disk with these bytes.
fn opened(alloc: Global, bytes: Vec<u8>) -> Result<Journal<MemDisk>, Memory> {
    let disk = MemDisk::new(bytes, Vec::new(alloc));
    Journal::open(alloc, disk).ok().ok_or(Memory)
}
