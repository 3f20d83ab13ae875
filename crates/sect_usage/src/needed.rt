// What is told of the words before the program begins.

/// The files of the keepers, of which at most one is named.
#[derive(Drop)]
pub struct Paths {
    /// The file of a database.
    pub db: Option<String>,
    /// The file of a journal.
    pub journal: Option<String>,
}

/// What the program opens before it calls the desk: the keeper's file and the port.
#[derive(Drop)]
pub struct Needs {
    pub paths: Paths,
    /// The port of `serve`.
    pub port: Option<u16>,
    /// The workers of `serve`, from 1 to 64, else 0.
    pub workers: u32,
}

/// Why the needs can't be told.
#[derive(Clone, Copy, Debug, PartialEq, Eq)]
pub enum WordFault {
    /// The words aren't in the grammar.
    BadWords,
    /// Want of memory.
    Memory,
}
