//! Pages with owners, over a journal.
#![tactic(auto)]

mod owners;
mod paged;
mod table;

pub use paged::Paged;
