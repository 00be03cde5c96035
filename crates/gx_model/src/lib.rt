//! The abstract database: states, what commands answer and change, and the play of a script. It is
//! definitions, in `specs/`, that the contracts of the engine and of the program cite, and laws of
//! them.
#![tactic(auto)]

mod laws;

pub use laws::{one_play_text, one_text_with_paths, runs_go_on};
