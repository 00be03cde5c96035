//! How a `find` looks for its records: the plan of least rank, and its printed line.
#![tactic(auto)]

mod planning;
mod plans;
mod text;

pub use planning::{plan, rank};
pub use plans::Plan;
pub use text::plan_line;
