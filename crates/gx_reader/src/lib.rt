//! The lines of a script that comes in pieces.
#![tactic(auto)]

mod reader;

pub use reader::{Fed, LineReader};
