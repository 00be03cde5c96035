//! Chains of entry pages: each page has the number of the next one.
#![tactic(auto)]

mod check;
mod gather;
mod make;
mod put;
mod read;
mod remove;
mod seek;
mod walk;
mod write;

pub use check::{Visits, check_chain, no_visits, visit_chain};
pub use gather::{append_sorted, collect, gather_from};
pub use make::make_first;
pub use put::put_in;
pub use read::read_entries;
pub use remove::remove_from;
