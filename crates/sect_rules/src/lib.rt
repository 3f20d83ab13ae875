//! The options of a path of decisions, and the first rule that an option breaks.
#![tactic(auto)]

mod configured;
mod due;
mod joined;
pub mod laws;
mod nth;
mod on_course;
mod options;
mod parted;
mod path;
mod rows;
mod wanted;

pub use configured::Configured;
pub use due::{Due, Step, broken, step_at};
pub use joined::Joined;
pub use on_course::OnCourse;
pub use options::option;
pub use path::{Path, PathOf};
pub use sect_model::Pick;
pub use wanted::Wanted;
