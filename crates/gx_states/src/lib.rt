//! The leaves that stand for a state: the files and the links of a schema as they are stored.
#![tactic(auto)]

mod files;
mod links;

pub use files::{file_def, file_node};
pub use links::stored_link;
