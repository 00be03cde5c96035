//! Hashed files: the entries of a leaf on several chains of entry pages, each on the chain that a
//! hash of the front of its key chooses.
#![tactic(auto)]

mod buckets;
mod hash;
mod spans;
mod visits;

pub use hash::{check, make, put, remove, select};
