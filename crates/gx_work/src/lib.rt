//! The workload of the program: its schema, and its script for so many records.
#![tactic(auto)]

mod definition;
mod laws;
mod task;
mod writing;

pub use definition::{SCHEMA, schema};
pub use laws::{script_is_short, script_plays};
pub use task::Task;
pub use writing::{MOST_RECORDS, changes, script};
