//! A plain, slow program that plays a script on the abstract database, and says exactly what its
//! definitions give. The tests compare the engine with it.
#![tactic(auto)]

mod changes;
mod listing;
mod paths;
mod plain;
mod refusals;
mod replies;

pub use plain::play;
