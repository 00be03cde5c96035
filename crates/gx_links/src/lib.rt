//! Linksets: each keeps a link, from members to their owners, in nodes.
#![tactic(auto)]

mod changes;
mod held;
mod linkset;
mod members;
mod owners;
mod pairs;
mod rows;
mod spans;
mod told;

pub use changes::{Change, replace_both};
pub use gx_schema::MOST_MEMBERS;
pub use held::held_both;
pub use linkset::{Joining, Linkset};
pub use members::without;
pub use owners::owners_of;
pub use pairs::{Owned, Owners, Pairs};
pub use spans::value_span;
pub use told::{pairs_at, pairs_of_rows};
