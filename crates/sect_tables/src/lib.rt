//! The rows of an imported table as commands: the values of one row, or the first field that isn't in its form, and what the
//! rows ask for together.
#![tactic(auto)]

mod ask;
mod config;
mod fields;
mod give;
mod given;
mod hand;
mod header;
mod line;
mod offering;
mod reading;
mod requests;
mod reservation;
mod section;
mod student;
mod subpart;
mod values;

pub use ask::read_ask;
pub use fields::field;
pub use given::{CsvFault, Given};
pub use line::{Before, LineFault, SectionLine};
pub use reading::Reading;
pub use reservation::read_reservation;
pub use section::{before_next, read_section};
pub use student::read_student;
