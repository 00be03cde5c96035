//! The records that a `find` gives, by its plan: by the key, by an index, or by all of them.
#![tactic(auto)]

mod by_index;
mod by_key;
mod listing;
mod spans;

pub use by_index::indexed_fields;
pub use by_key::condition_at;
pub use listing::{found_rows, found_text};
