// A keeper of rows in a database of SQLite.
ghost use Rattle.std.specs.Prelude.{◌≡◌, ◌≤◌, None};
ghost use Rattle.sect_edge.specs.declared.edge.KeepFault.{KeepFault};
ghost use Rattle.sect_edge.specs.Causes.{Rose};

use crate::window::Window;
use sect_edge::{KeepFault, Keeper};
use sqlite::{Connection, Error, ErrorCode, File, FileStore, params};

/// A database that stands in a file.
pub(crate) type Database = Connection<FileStore<File>>;

/// The rows of the table `entry` of a database file, by place from 0. It doesn't tell them. While it lives the file is locked
/// against every other program. After a failure of the disk each later call fails.
pub struct SqliteKeeper {
    database: Database,
    // How many rows there are, which is the place of the next.
    rows: u64,
    window: Window,
    faults: u64,
}

/// It is written out, so that a caller does not prove again how each part is dropped.
impl Drop for SqliteKeeper {
    fn drop(self) {
        let SqliteKeeper {
            database: _,
            rows: _,
            window: _,
            faults: _,
        } = self;
    }
}

impl SqliteKeeper {
    /// The database of a path, which is made where there is none. `Failed` where it can't be opened, is no database, is
    /// locked, or has another table of this name.
    pub fn open(rt: &HostRuntime, path: &str) -> Result<SqliteKeeper, KeepFault> {
        match opened(rt, path) {
            Ok(keeper) => Ok(keeper),
            Err(error) => Err(fault_of(error)),
        }
    }

    /// Copies what was added into the file itself, and closes it.
    pub fn close(self) -> Result<(), KeepFault> {
        let SqliteKeeper {
            database,
            rows: _,
            window: _,
            faults: _,
        } = self;
        match database.close() {
            Ok(()) => Ok(()),
            Err(error) => Err(fault_of(error)),
        }
    }

    /// Makes the table where there is none, and looks at its rows. It is refused where the table has other columns.
    fn begin(&mut self) -> Result<(), Error> {
        self.rows = made_and_counted(&mut self.database)?;
        self.window.move_to(&mut self.database, 0)
    }

    /// What is answered for an error; where it isn't want of memory, it is counted.
    fn told(&mut self, error: Error) -> KeepFault
        ensures later { self.old.faults ≤ self.new.faults }
        ensures count { result ≡ KeepFault.Failed → Rose self.old.faults self.new.faults }
    {
        let fault = fault_of(error);
        if fault == KeepFault::Failed {
            self.faults = self.faults.saturating_add(1);
        }
        fault
    }
}

/// Want of memory, or a failure.
fn fault_of(error: Error) -> KeepFault {
    match error {
        Error::SqliteFailure(ErrorCode::OutOfMemory) => KeepFault::Memory,
        _ => KeepFault::Failed,
    }
}

/// The keeper over the database of a path, with its table and the number of its rows. It is made before its rows are looked
/// at, so that no end drops a database but by the keeper's own drop.
fn opened(rt: &HostRuntime, path: &str) -> Result<SqliteKeeper, Error> {
    let mut keeper = SqliteKeeper {
        database: Connection::open(rt, path)?,
        rows: 0,
        window: Window::new(rt.alloc()),
        faults: 0,
    };
    keeper.begin()?;
    Ok(keeper)
}

/// Makes the table where there is none, and counts its rows.
fn made_and_counted(database: &mut Database) -> Result<u64, Error> {
    database.execute_batch(
        "CREATE TABLE IF NOT EXISTS entry (place INTEGER PRIMARY KEY, row BLOB NOT NULL)",
    )?;
    let rows = database
        .query_row("SELECT count(*) FROM entry", &[])?
        .get::<i64>(0)?;
    u64::try_from(rows).map_err(|_| Error::IntegralValueOutOfRange(0))
}

/// Puts a row at this place of the table.
fn insert(database: &mut Database, place: u64, row: &[u8]) -> Result<(), Error> {
    let Ok(place) = i64::try_from(place) else {
        return Err(Error::IntegralValueOutOfRange(0));
    };
    database.execute(
        "INSERT INTO entry (place, row) VALUES (?1, ?2)",
        params![place, row],
    )?;
    Ok(())
}

impl Keeper for SqliteKeeper {
    ghost rows = { λ k. None };

    ghost faults = { λ k. k.faults };

    /// One transaction.
    fn append(&mut self, row: &[u8]) -> Result<(), KeepFault> {
        match insert(&mut self.database, self.rows, row) {
            Ok(()) => {
                self.rows = self.rows.saturating_add(1);
                Ok(())
            }
            Err(error) => Err(self.told(error)),
        }
    }

    fn row(&mut self, at: u64, into: &mut Vec<u8>) -> Result<bool, KeepFault> {
        let Ok(place) = i64::try_from(at) else {
            return Ok(false);
        };
        if let Err(error) = self.window.reach(&mut self.database, place) {
            return Err(self.told(error));
        }
        let Some(row) = self.window.row(place) else {
            return Ok(false);
        };
        into.clear();
        into.extend_from_slice(row)?;
        Ok(true)
    }

    /// No call of the database.
    fn len(&mut self) -> Result<u64, KeepFault> {
        Ok(self.rows)
    }
}
