//! Two linksets: inverted lists, and arrays of pointers.
#![tactic(auto)]

mod array;
mod array_pairs;
mod arrays;
mod counts;
mod inverted;
mod pieces;
mod records;

pub use array::PointerArray;
pub use inverted::Inverted;
