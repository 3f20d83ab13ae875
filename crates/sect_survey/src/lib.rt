//! The survey of unmet requests: what a search says of each, which rules stand in their way, and which sections are wanted.
#![tactic(auto)]

mod counts;
pub mod laws;
mod leaves;
mod line;
mod searching;
mod sections;
mod sums;
mod surveying;
mod tally;
mod text;

pub use line::{Survey, SurveyLine, Why};
pub use surveying::survey;
pub use text::print_survey;
