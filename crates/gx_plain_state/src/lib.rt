//! The state of a plain, slow program: files and links as lists in the order of their keys.
#![tactic(auto)]

mod files;
mod links;
mod state;

pub use files::{PlainFile, copy_row};
pub use links::{Pair, PlainLink, is_same};
pub use state::PlainState;
