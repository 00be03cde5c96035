//! The layer `partition`: each record goes whole to one of several children, by the value of one
//! field.
#![tactic(auto)]

mod layer;
mod make;
mod mapping;
mod place;
mod ranges;

pub use layer::Partition;
pub use make::partition;
pub use place::Where;
