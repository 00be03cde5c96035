//! The linkset of any link of a schema.
#![tactic(auto)]

mod any;
mod stored;

pub use any::AnyLinkset;
pub use stored::{link_def, linkset_at};
