// What came of a run, in a text.

use crate::stand::Stand;
use sect_app::{Status, number_of, print_status};
use sect_base::Memory;
use sect_edge::MemLink;
use std::alloc::Global;

/// Puts the status, how many rows the keeper has and what was written behind the text.
pub fn put_ended(alloc: Global, stand: &Stand, into: &mut String) -> Result<(), Memory> {
    put_end(alloc, stand, into)?;
    put_bytes(stand.written(), into)
}

/// Puts the status, and how many rows the keeper has.
pub fn put_end(alloc: Global, stand: &Stand, into: &mut String) -> Result<(), Memory> {
    put_status(alloc, stand.status, into)?;
    match &stand.keeper {
        Some(keeper) => write!(into, "rows {} ", keeper.rows().len())?,
        None => into.push_str("no keeper ")?,
    }
    Ok(())
}

/// Puts the number of the status, and its text.
pub fn put_status(alloc: Global, status: Status, into: &mut String) -> Result<(), Memory> {
    let mut text = Vec::new(alloc);
    print_status(status, &mut text)?;
    write!(into, "status {} ", number_of(status))?;
    put_bytes(text.as_slice(), into)
}

/// Puts what the connection of a link that was handed back as this number, from 0, was told.
pub fn put_talk(link: &MemLink, at: usize, into: &mut String) -> Result<(), Memory> {
    match link.talk(at) {
        Some((_, sink)) => put_bytes(sink.bytes(), into),
        None => Ok(into.push_str("not served")?),
    }
}

/// Puts the bytes, with a bar for each line feed and none of the carriage returns.
pub fn put_bytes(bytes: &[u8], into: &mut String) -> Result<(), Memory> {
    let text = str::from_utf8(bytes).unwrap_or("no text");
    for letter in text.chars() {
        match letter {
            '\n' => into.push('|')?,
            '\r' => {}
            _ => into.push(letter)?,
        }
    }
    Ok(())
}
