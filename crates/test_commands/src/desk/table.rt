// What each run begins with.

use crate::runs::{RUN, Setting};
use std::alloc::{AllocError, Global};

/// A command with its input, and the keeper's rows.
#[derive(Drop)]
pub struct Table {
    /// The words of the command.
    pub words: String,
    /// The rows, each with a line feed behind it.
    pub rows: String,
    /// Where the last row begins.
    pub last_row: usize,
    /// The command's input.
    pub input: Vec<u8>,
}

impl Table {
    /// No words, no rows and no input.
    pub fn new(alloc: Global) -> Table {
        Table {
            words: String::new(alloc),
            rows: String::new(alloc),
            last_row: 0,
            input: Vec::new(alloc),
        }
    }

    /// How the command runs where no call fails.
    pub fn setting(&self) -> Setting<'_> {
        Setting {
            words: self.words.as_str(),
            ..RUN
        }
    }

    /// Takes a line of a name, of words, of a row or of the input.
    pub fn take(&mut self, line: &str) -> Result<(), AllocError> {
        if line.starts_with('#') {
            self.rows.clear();
            return self.begin("");
        }
        if let Some(words) = line.strip_prefix("$ ") {
            return self.begin(words);
        }
        if let Some(row) = line.strip_prefix("| ") {
            return self.put_row(row);
        }
        self.input.extend_from_slice(line.as_bytes())?;
        self.input.push(b'\n')?;
        Ok(())
    }

    /// Begins a command without input.
    fn begin(&mut self, words: &str) -> Result<(), AllocError> {
        self.input.clear();
        self.words.clear();
        self.words.push_str(words)
    }

    /// Puts a row behind the others.
    fn put_row(&mut self, row: &str) -> Result<(), AllocError> {
        self.last_row = self.rows.len();
        self.rows.push_str(row)?;
        self.rows.push_str("\n")
    }
}
