// A journal with what its disk was at first.

use crate::disks::words::{bytes_of, numbers_of};
use crate::told::put_bytes;
use sect_base::Memory;
use sect_edge::{KeepFault, Keeper};
use sect_journal::{Journal, JournalFault, MemDisk};
use std::alloc::Global;

/// A journal, and the bytes and the calls that fail with which its disk began.
#[derive(Drop)]
pub struct OnDisk {
    pub bytes: Vec<u8>,
    pub fail: Vec<u64>,
    pub journal: Journal<MemDisk>,
}

/// What a journal leaves that is closed: its disk, and with what that began.
#[derive(Drop)]
pub struct Ended {
    pub bytes: Vec<u8>,
    pub fail: Vec<u64>,
    pub disk: MemDisk,
}

/// A disk in memory.
pub fn disk_of(alloc: Global, bytes: &[u8], fail: &[u64]) -> Result<MemDisk, Memory> {
    Ok(MemDisk::new(bytes.to_vec(alloc)?, Vec::from_slice(alloc, fail)?))
}

/// Opens the journal of a line in this place, which is empty where it doesn't open.
pub fn open(
    alloc: Global,
    line: &str,
    place: &mut Option<OnDisk>,
    into: &mut String,
) -> Result<(), Memory> {
    let begun = begun_of(alloc, line)?;
    let told = put_begun(&begun, into);
    *place = begun.ok();
    told
}

/// The journal of a line.
fn begun_of(alloc: Global, line: &str) -> Result<Result<OnDisk, JournalFault>, Memory> {
    let (bytes, fail) = line.split_once(' ').unwrap_or((line, ""));
    let bytes = bytes_of(alloc, bytes)?;
    let fail = numbers_of(alloc, fail)?;
    let disk = disk_of(alloc, &bytes, &fail)?;
    Ok(match Journal::open(alloc, disk) {
        Ok(journal) => Ok(OnDisk {
            bytes,
            fail,
            journal,
        }),
        Err((fault, _)) => Err(fault),
    })
}

/// Puts whether a journal opened, and why it didn't.
fn put_begun(begun: &Result<OnDisk, JournalFault>, into: &mut String) -> Result<(), Memory> {
    match begun {
        Ok(_) => into.push_str("ok")?,
        Err(JournalFault::Failed) => into.push_str("failed")?,
        Err(JournalFault::BadJournal(place)) => write!(into, "bad journal {place}")?,
        Err(JournalFault::Memory) => into.push_str("memory")?,
    }
    Ok(())
}

/// Puts how an append ended.
pub fn put_kept(kept: Result<(), KeepFault>, into: &mut String) -> Result<(), Memory> {
    into.push_str(match kept {
        Ok(()) => "ok",
        Err(KeepFault::Failed) => "failed",
        Err(KeepFault::Memory) => "memory",
    })?;
    Ok(())
}

/// Puts a row behind a space.
fn put_text(row: &[u8], into: &mut String) -> Result<(), Memory> {
    into.push(' ')?;
    put_bytes(row, into)
}

/// Puts the row of a number, which is read into a list.
fn put_read(
    journal: &mut Journal<MemDisk>,
    at: u64,
    row: &mut Vec<u8>,
    into: &mut String,
) -> Result<(), Memory> {
    match journal.row(at, row) {
        Ok(true) => put_text(row, into),
        Ok(false) => Ok(into.push_str(" none")?),
        Err(_) => Ok(into.push_str(" failed")?),
    }
}

/// Puts the rows of a journal in order, each behind a space.
pub fn put_all(
    alloc: Global,
    journal: &mut Journal<MemDisk>,
    into: &mut String,
) -> Result<(), Memory> {
    let count = journal.len().unwrap_or(0);
    let mut row = Vec::new(alloc);
    for at in 0..count {
        put_read(journal, at, &mut row, into)?;
    }
    Ok(())
}

impl OnDisk {
    /// Appends the words of a line: one by itself, others as a group. A dash is a row without bytes.
    pub fn append(&mut self, alloc: Global, line: &str) -> Result<Result<(), KeepFault>, Memory> {
        let mut rows = Vec::new(alloc);
        for word in line.split_whitespace() {
            let row = if word == "-" { "" } else { word };
            rows.push(row.as_bytes())?;
        }
        Ok(self.append_rows(&rows))
    }

    /// Appends these rows: one by itself, others as a group.
    fn append_rows(&mut self, rows: &[&[u8]]) -> Result<(), KeepFault> {
        match rows {
            [row] => self.journal.append(row),
            rows => self.journal.append_all(rows),
        }
    }

    /// Puts how many rows there are, and each of them.
    pub fn put_rows(&mut self, alloc: Global, into: &mut String) -> Result<(), Memory> {
        let count = self.journal.len().unwrap_or(0);
        write!(into, "{count}:")?;
        put_all(alloc, &mut self.journal, into)
    }

    /// Closes the journal.
    pub fn close(self) -> Ended {
        let OnDisk {
            bytes,
            fail,
            journal,
        } = self;
        Ended {
            bytes,
            fail,
            disk: journal.close(),
        }
    }
}
