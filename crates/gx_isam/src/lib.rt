//! Indexed sequential files: the entries of a leaf on chains of entry pages, each on the chain that
//! the separators of an index page choose.
#![tactic(auto)]

mod change;
mod isam;
mod read;
mod rebuild;
mod spans;
mod visits;

pub use isam::{check, make, put, remove, reorganize, select};
