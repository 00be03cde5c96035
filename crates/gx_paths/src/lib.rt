//! Paths over links: the lines that ask for one.
#![tactic(auto)]

mod legs;
mod reading;

pub use gx_commands::{Leg, Legs, MOST_LEGS, PathQuery, Way};
pub use reading::{is_path, read_path};
