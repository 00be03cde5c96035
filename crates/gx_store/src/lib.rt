//! The leaves of a database on a named device of a machine: prepared, sealed, made, opened and
//! closed.
#![tactic(auto)]

mod laws;
mod making;
mod opening;
mod preparing;
mod sealing;
mod store;
mod unopened;

pub use laws::{reopens_alike, stored_reopens};
pub use making::make;
pub use opening::{open, open_attached};
pub use preparing::prepare;
pub use sealing::seal;
pub use store::{FRAMES, Store, close, is_size, smallest_device};
pub use unopened::Unopened;
