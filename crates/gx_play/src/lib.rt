//! Playing a script over leaves line by line, and what is said of how a request ends.
#![tactic(auto)]

mod carry;
mod ending;
mod laws;
mod lines;
mod outcome;
mod over_leaves;
mod play;
mod say;
mod status;
mod summary;

pub use carry::{LineEnd, play_line};
pub use ending::{DeviceWhy, Ending, end};
pub use gx_engine::Engine;
pub use laws::acked_commits_are_kept;
pub use lines::{Asked, PIECE_LEN, asked_at, line_command, next_line};
pub use outcome::{finish, tell};
pub use over_leaves::play_over;
pub use play::{Answers, PlayEnd, play_script};
pub use say::say_all;
pub use status::Status;
pub use summary::summarize;
