//! Files that are B+ trees of pages: they are made, entries are set, and keys are removed.
#![tactic(auto)]

mod bplus;
mod insertion;
mod landing;
mod putting;
mod removal;
mod splitting;

pub use bplus::{make, put, remove};
pub use gx_btree::{check, select};
