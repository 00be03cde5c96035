//! The ring: a linkset in which each owner leads to its first member, and each member to the next.
#![tactic(auto)]

mod places;
mod reads;
mod records;
mod ring;
mod rows;

pub use ring::Ring;
