// Rows both ways, with each reply and refusal, and texts of no row.
use sect_base::Memory;
use sect_command::{Command, Reply};
use sect_once::Entry;
use sect_wire::{print_row, read_row};
use std::alloc::Global;

mod tables;
mod times;
mod values;

/// How a row is printed.
fn row_text(alloc: Global, entry: &Entry<Command, Reply>) -> Result<Vec<u8>, Memory> {
    let mut text = Vec::new(alloc);
    print_row(entry, &mut text)?;
    Ok(text)
}

/// Whether a text is printed again as the row that it is read as.
fn row_comes_back(alloc: Global, text: &[u8]) -> Result<bool, Memory> {
    match read_row(alloc, text)? {
        Some(entry) => Ok(row_text(alloc, &entry)?.as_slice() == text),
        None => Ok(false),
    }
}

/// The first text that isn't printed again as the row that it is read as.
fn first_other_row<'a>(alloc: Global, texts: &[&'a str]) -> Result<Option<&'a str>, Memory> {
    for text in texts {
        if !row_comes_back(alloc, text.as_bytes())? {
            return Ok(Some(text));
        }
    }
    Ok(None)
}

/// Whether a text is a row.
fn is_row(alloc: Global, text: &[u8]) -> Result<bool, Memory> {
    Ok(read_row(alloc, text)?.is_some())
}

#[test]
fn rows_come_back(rt: HostRuntime) {
    let alloc = rt.alloc();
    assert_eq!(rt; first_other_row(alloc, &tables::ROWS), Ok(None));
    for text in tables::NO_ROWS.iter() {
        assert_eq!(rt; is_row(alloc, text.as_bytes()), Ok(false), "{text}");
    }
}
