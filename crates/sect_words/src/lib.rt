//! What stands in one word, both ways: numbers, ids, lists, limits, days, meetings and those a row is made of.
#![tactic(auto)]

mod digits;
mod fault;
mod number;
mod parts;
mod printing;
mod read_parts;
mod read_terms;
mod readable;
mod readable_ids;
mod same;
mod spelled;
mod spelled_lists;
mod spelled_rows;
mod take;

pub use digits::{
    put, put_bytes, put_caller, put_courses, put_day, put_long, put_marked, put_short,
};
pub use fault::Fault;
pub use number::{number_up_to, read_between, read_number};
pub use parts::Parts;
pub use printing::{print_bytes, print_number, print_text};
pub use read_terms::read_meetings;
pub use readable::{Readable, read_all, read_list};
pub use same::same_bytes;
pub use spelled::{Spelled, print_marked, print_whole};
pub use spelled_lists::print_list;
pub use spelled_rows::put_choice;
