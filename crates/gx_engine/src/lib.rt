//! The engine: the commands of a script on leaves.
#![tactic(auto)]

mod engine;
mod pairs;
mod parts;
mod records;
mod reorganize;

pub use engine::{Engine, StepStop};
