//! Playing the workload silently.
#![tactic(auto)]

mod summary;
mod working;

pub use summary::summary_line;
pub use working::play_work;
