//! The commands that change records or links, on leaves.
#![tactic(auto)]

mod alone;
mod edits;
mod files;
mod home;
mod links;
mod one_record;
mod records;
mod segments;

pub use edits::{edit, edit_answer};
