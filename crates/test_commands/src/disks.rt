// Journals on disks in memory.

mod crash;
mod on_disk;
mod words;

use crate::lines::put_as_it_is;
use crash::put_crashes;
use on_disk::{OnDisk, open, put_kept};
use sect_base::Memory;
use std::alloc::Global;

/// The journal of the lines before, where there is one.
#[derive(Drop)]
pub struct Disks {
    place: Option<OnDisk>,
}

impl Disks {
    /// No journal.
    pub fn new() -> Disks {
        Disks { place: None }
    }

    /// Does what a line says, and puts what is printed for it behind the text.
    pub fn put(&mut self, alloc: Global, line: &str, into: &mut Vec<u8>) -> Result<(), Memory> {
        let mut text = String::new(alloc);
        put_told(alloc, line, &mut self.place, &mut text)?;
        put_as_it_is(text.as_str(), into)
    }
}

/// Does what a line says, and puts what came of it behind the text. The journal stands in the place behind it, where there
/// still is one.
fn put_told(
    alloc: Global,
    line: &str,
    place: &mut Option<OnDisk>,
    into: &mut String,
) -> Result<(), Memory> {
    let (word, rest) = line.split_once(' ').unwrap_or((line, ""));
    match word {
        "open" => open(alloc, rest, place, into),
        "crash" => match place.take() {
            Some(journal) => put_end(alloc, rest, journal, into),
            None => Ok(into.push_str(line)?),
        },
        _ => match place {
            Some(journal) => put_asked(alloc, word, rest, journal, into),
            None => Ok(into.push_str(line)?),
        },
    }
}

/// Closes a journal, and tells what crashes leave.
fn put_end(alloc: Global, rest: &str, journal: OnDisk, into: &mut String) -> Result<(), Memory> {
    let ended = journal.close();
    put_crashes(alloc, &ended, rest, into)
}

/// Does what a word says with a journal that goes on.
fn put_asked(
    alloc: Global,
    word: &str,
    rest: &str,
    journal: &mut OnDisk,
    into: &mut String,
) -> Result<(), Memory> {
    match word {
        "append" => put_kept(journal.append(alloc, rest)?, into),
        "rows" => journal.put_rows(alloc, into),
        _ => Ok(into.push_str("no such word")?),
    }
}
