// The keeper that the words name.
ghost use Rattle.std.specs.Prelude.{None};
ghost use Rattle.sect_real.specs.Kept.{faults_of};

use crate::SqliteKeeper;
use sect_edge::{KeepFault, Keeper};
use sect_journal::Journal;
use sect_system::FileDisk;

/// One of the keepers, or none. It doesn't tell its rows. A database is large, so it lies in a place of its own.
pub enum AnyKeeper {
    /// No file is named: no row is kept, and the history ends with the program.
    Nowhere,
    Sqlite(Box<SqliteKeeper>),
    Journal(Journal<FileDisk>),
}

impl AnyKeeper {
    /// Closes a database, so that all stands in one file. The others have nothing left to do.
    pub fn close(self) -> Result<(), KeepFault> {
        match self {
            AnyKeeper::Sqlite(keeper) => Box::into_inner(keeper).close(),
            AnyKeeper::Nowhere => Ok(()),
            AnyKeeper::Journal(_) => Ok(()),
        }
    }
}

impl Keeper for AnyKeeper {
    ghost rows = { λ k. None };

    ghost faults = { faults_of };

    fn append(&mut self, row: &[u8]) -> Result<(), KeepFault> {
        match self {
            AnyKeeper::Nowhere => Ok(()),
            AnyKeeper::Sqlite(keeper) => keeper.as_mut().append(row),
            AnyKeeper::Journal(keeper) => keeper.append(row),
        }
    }

    fn row(&mut self, at: u64, into: &mut Vec<u8>) -> Result<bool, KeepFault> {
        match self {
            AnyKeeper::Nowhere => Ok(false),
            AnyKeeper::Sqlite(keeper) => keeper.as_mut().row(at, into),
            AnyKeeper::Journal(keeper) => keeper.row(at, into),
        }
    }

    fn len(&mut self) -> Result<u64, KeepFault> {
        match self {
            AnyKeeper::Nowhere => Ok(0),
            AnyKeeper::Sqlite(keeper) => keeper.as_mut().len(),
            AnyKeeper::Journal(keeper) => keeper.len(),
        }
    }
}
