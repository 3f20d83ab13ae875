// Rows of a database that were read at once, so that those behind the first need no statement of their own.

use crate::database::Database;
use sqlite::types::ValueRef;
use sqlite::{Error, File, FileStore, Rows, params};
use std::alloc::Global;

/// How many rows are read at once at most.
const MOST_ROWS: i64 = 256;

/// With this many bytes no more rows are read.
const MOST_BYTES: usize = 65_536;

/// The rows of some places, one behind the other.
pub struct Window {
    place: i64,
    rows: Vec<Vec<u8>>,
}

/// It is written out, so that a caller does not prove again how each part is dropped.
impl Drop for Window {
    fn drop(self) {
        let Window { place: _, rows: _ } = self;
    }
}

impl Window {
    /// Without rows.
    pub fn new(alloc: Global) -> Window {
        Window {
            place: 0,
            rows: Vec::new(alloc),
        }
    }

    /// The row of a place, where it stands in the window.
    pub fn row(&self, place: i64) -> Option<&[u8]> {
        let at = usize::try_from(place.checked_sub(self.place)?).ok()?;
        Some(self.rows.get(at)?.as_slice())
    }

    /// Moves to a place, unless its row stands in the window.
    pub fn reach(&mut self, database: &mut Database, place: i64) -> Result<(), Error> {
        if self.row(place).is_some() {
            return Ok(());
        }
        self.move_to(database, place)
    }

    /// Reads the rows from a place on, up to the first that is missing. At an error none stands behind those that were read.
    pub fn move_to(&mut self, database: &mut Database, place: i64) -> Result<(), Error> {
        self.rows.clear();
        self.place = place;
        let end = place.saturating_add(MOST_ROWS);
        let mut found = database.query(
            "SELECT place, row FROM entry WHERE place >= ?1 AND place < ?2 ORDER BY place",
            params![place, end],
        )?;
        self.take(&mut found, end)
    }

    /// Takes the rows that were found, up to the first that is missing or to this place.
    fn take(&mut self, found: &mut Rows<'_, FileStore<File>>, end: i64) -> Result<(), Error> {
        let mut bytes = 0usize;
        for next in self.place..end {
            let Some(row) = found.next()? else {
                break;
            };
            if row.get::<i64>(0)? != next || bytes >= MOST_BYTES {
                break;
            }
            let ValueRef::Blob(row) = row.get_ref(1)? else {
                return Err(Error::InvalidQuery);
            };
            bytes = bytes.saturating_add(row.len());
            self.rows.push(row.to_vec(*self.rows.allocator())?)?;
        }
        Ok(())
    }
}
