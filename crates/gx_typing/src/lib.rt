//! Typing: which equations can be carried out under a schema, and which leaves they have.
#![tactic(auto)]

mod dues;
mod reasons;
mod rows;
mod sides;
mod terms;
mod typing;
mod whole;

pub use dues::{file_form, link_kinds};
pub use reasons::{TypeWhy, Untyped};
pub use typing::{Owners, Specs, Typing, root_pages};
pub use whole::typed;
