// The keeper that the words name.

use crate::end::End;
use sect_edge::KeepFault;
use sect_journal::{Journal, JournalFault};
use sect_real::{AnyKeeper, FileDisk, SqliteKeeper};
use sect_script::Status;
use sect_usage::Paths;
use std::alloc::{AllocFailed, AllocGlobal};
use std::io;

/// The keeper over the file that is named, or none where no file is.
pub fn keeper_of(rt: HostRuntime, paths: &Paths) -> Result<AnyKeeper, End> {
    if let Some(path) = &paths.db {
        return open_database(rt, path.as_str());
    }
    if let Some(path) = &paths.journal {
        return open_journal(rt, path.as_str());
    }
    Ok(AnyKeeper::Nowhere)
}

/// The keeper over the database at this path.
fn open_database(rt: HostRuntime, path: &str) -> Result<AnyKeeper, End> {
    match SqliteKeeper::open(&rt, path) {
        Ok(keeper) => database(rt, keeper),
        Err(KeepFault::Failed) => Err(End::Told(Status::KeeperFault)),
        Err(KeepFault::Memory) => Err(End::Told(Status::Memory)),
    }
}

/// The keeper over this database. Without memory for it, it is closed.
fn database(rt: HostRuntime, keeper: SqliteKeeper) -> Result<AnyKeeper, End> {
    match Box::new(rt.alloc(), keeper) {
        Ok(keeper) => Ok(AnyKeeper::Sqlite(keeper)),
        Err(AllocFailed { value }) => {
            let _ = value.close();
            Err(End::Told(Status::Memory))
        }
    }
}

/// The keeper over the journal at this path.
fn open_journal(rt: HostRuntime, path: &str) -> Result<AnyKeeper, End> {
    match FileDisk::open(&rt, path) {
        Ok(disk) => start_journal(rt, disk),
        Err(error) if error.kind() == io::ErrorKind::OutOfMemory => Err(End::Told(Status::Memory)),
        Err(_) => Err(End::Told(Status::KeeperFault)),
    }
}

/// The keeper over a journal that is started on this disk.
fn start_journal(rt: HostRuntime, disk: FileDisk) -> Result<AnyKeeper, End> {
    match Journal::start(rt.alloc(), disk) {
        Ok(journal) => Ok(AnyKeeper::Journal(journal)),
        Err((fault, _)) => Err(end_of(fault)),
    }
}

/// The end of a program whose journal doesn't open.
fn end_of(fault: JournalFault) -> End {
    match fault {
        JournalFault::Failed => End::Told(Status::KeeperFault),
        JournalFault::BadJournal(place) => End::BadJournal(place),
        JournalFault::Memory => End::Told(Status::Memory),
    }
}
