//! The answers of commands that follow a link, on leaves.
#![tactic(auto)]

mod answers;
mod found_members;

pub use answers::answer;
