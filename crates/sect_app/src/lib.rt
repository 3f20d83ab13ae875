//! Every command of the desk: what is done for its words. The commands of an import are asked of a desk by rising numbers, as far
//! as the rows of its table show them; each of them has a text. The generated input is a term of a given size, asked of a machine
//! of its own.
#![tactic(auto)]

mod asking;
mod fitting;
mod generate;
mod import;
pub mod laws;
mod maker;
mod opened;
mod over;
mod serving;
mod shown;
mod table;
mod top;

pub use fitting::each_command_of_a_table_has_a_text;
pub use import::import_table;
pub use maker::{made_machine, make};
pub use sect_script::{
    Handler, LineEnd, LineError, LineFault, LineReader, RunEnd, Status, number_of, print_status,
    run_lines, write_all,
};
pub use sect_usage::{Needs, Paths, WordFault, Words, needs, read_words};
pub use table::run_table;
pub use top::desk;
