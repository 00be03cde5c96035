//! Leaves on pages: each leaf is a file of its kind, and all share one table of owners.
#![tactic(auto)]

mod checking;
mod files;
mod laws;
mod making;
mod paged;

pub use laws::few_pages;
pub use paged::PagedLeaves;
