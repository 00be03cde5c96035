//! Values in the bytes of bodies, each as it is or by its code: how they are read and written.
#![tactic(auto)]

mod codes;
mod finding;
mod fronts;
mod layout;
mod lengths;
mod placing;
mod slots;
mod values;
mod writing;

pub use codes::Codes;
pub use finding::front_at;
pub use fronts::{meets_front, read_front, split_stored};
pub use layout::{Group, Layout, Plain};
pub use lengths::behind_lengths;
pub use placing::place_fronts;
pub use slots::Slot;
pub use values::read_stored;
pub use writing::{push_stored, write_body};
