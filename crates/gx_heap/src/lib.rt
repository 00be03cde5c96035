//! Heap files: the entries of a leaf on one chain of entry pages, in no order.
#![tactic(auto)]

mod heap;

pub use heap::{check, make, put, remove, select};
