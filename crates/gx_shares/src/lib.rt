//! The play of a script of turns of several sessions.
#![tactic(auto)]

mod carry;
mod laws;
mod over_leaves;
mod play;
mod say;

pub use laws::acked_turns_are_kept;
pub use over_leaves::share_over;
