//! Records put together from the parts that the children of a layer hold.
#![tactic(auto)]

mod gather;
mod order;
mod recs;

pub use gather::{NO_BLOCK, add_parts, gather_each, gather_parts};
pub use order::{is_same_values, sort_parts};
pub use recs::Recs;
