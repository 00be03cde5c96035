//! Which pages of an owner were seen.
#![tactic(auto)]

mod seen;

pub use seen::{is_unseen, seek_unseen};
