//! Inner pages: a page is a list of separators, which ascend, and of the children between them.
#![tactic(auto)]

mod format;
mod iter;
mod leading;
mod page;
mod splitting;
mod validity;

pub use format::{MAX_SEPARATOR_LEN, split_branch};
pub use iter::Branches;
pub use leading::{Fork, fork_for};
pub use page::{
    KIND, branches, child, child_of, drop_child, has_room, insert, make_inner, separator,
    separators,
};
pub use splitting::split;
pub use validity::is_inner;
