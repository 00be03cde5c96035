//! The index page of an indexed sequential file: the first page of each bucket, and the separators
//! between the buckets.
#![tactic(auto)]

mod index;
mod layout;

pub use index::{bucket_of, buckets, clear_index, first, is_index, last_bucket, set_first};
pub use layout::{are_ordered, write_index};
