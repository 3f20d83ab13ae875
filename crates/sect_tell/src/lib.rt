//! What is told of a history: its audit, the report of a query, the export of a table, the best whole schedule of a student
//! and the survey of unmet requests.
#![tactic(auto)]

mod audits;
mod plans;
mod surveys;
mod teller;
mod views;

pub use audits::audit;
pub use plans::Plan;
pub use surveys::Survey;
pub use teller::{Teller, tell};
pub use views::{Export, Report};
