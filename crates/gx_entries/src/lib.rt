//! The leaf entries of one record: in which leaves they stand, and their bodies, made of its data.
#![tactic(auto)]

mod bodies;
mod groups;
mod leaves;
mod plain;

pub use bodies::{both_bodies, first_body, only_body};
pub use groups::others_stay;
pub use leaves::{OwnLeaves, own_leaves};
