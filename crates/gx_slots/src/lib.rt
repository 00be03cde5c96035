//! Entry pages: a page is a list of entries, each a key and a body, and the number of the next
//! page.
#![tactic(auto)]

mod format;
mod iter;
mod order;
mod page;
mod seeking;
mod splitting;
mod validity;

pub use format::split_entry;
pub use gx_bytes::NONE;
pub use iter::Entries;
pub use order::{is_ascending, rank};
pub use page::{
    KIND, add, add_at, clear, count, entries, entry, find, next, set_next, take, take_at,
};
pub use seeking::{Sought, Spot, seek};
pub use splitting::{middle, split};
pub use validity::is_entries;
