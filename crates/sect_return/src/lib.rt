//! What a table's text says of the rows that it was made of, and that a state has such tables: laws alone.
#![tactic(auto)]

mod laws;
mod states;

pub use laws::a_table_reads_back;
pub use states::{a_state_is_checked, a_state_reads_back, students_return, tables_return};
