//! B+ trees of pages, entry pages with ascending keys under inner pages: what stands on them, and
//! how they are searched and checked.
#![tactic(auto)]

mod checking;
mod reading;
mod searching;
mod selection;

pub use checking::check;
pub use reading::{Shape, Step, child_for, leads_last, read_page, read_step};
pub use selection::select;
