//! The order of bytes, the first eight of them at once.
#![tactic(auto)]

mod bytes;

pub use bytes::{compare_bytes, is_below};
