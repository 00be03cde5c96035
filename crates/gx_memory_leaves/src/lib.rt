//! Leaves in memory, over any device.
#![tactic(auto)]

mod bytes;
mod key;
mod leaf;
mod plain;
mod short;
mod undo;

pub use plain::PlainLeaves;
