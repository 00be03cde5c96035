//! Working pages in a few frames, over a device that keeps the committed ones.
#![tactic(auto)]

mod access;
mod commit;
mod forget;
mod journal;
mod opening;
mod publish;
mod room;
mod working;

pub use journal::Journal;
pub use opening::Unopened;
