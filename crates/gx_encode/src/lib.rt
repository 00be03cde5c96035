//! The layer `encode`: one data field by its code, and the two codes.
#![tactic(auto)]

mod codes;
mod layer;
mod make;
mod mapping;
mod packs;
mod runs;

pub use codes::coded;
pub use layer::Encode;
pub use make::encode;
pub use packs::{pack_into, unpack};
pub use runs::{rle_into, unrle};
