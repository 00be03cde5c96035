//! Interleaved sessions on an engine.
#![tactic(auto)]

mod holder;
mod locks;
mod session;
mod sessions;
mod shared;
mod step;

pub use sessions::{Sessions, Turn};
