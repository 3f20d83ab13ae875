//! Tables as a registrar's spreadsheet gives and takes them: a text that comes in pieces cut into rows, their import, and their
//! export.
#![tactic(auto)]

mod catalog;
mod field;
mod import;
mod kept;
mod lines;
mod past;
mod people;
mod read;
mod records;
mod rows;
mod sheet;
mod table;

pub use import::Import;
pub use records::Records;
pub use sect_tables::{CsvFault, Given};
pub use table::export;
