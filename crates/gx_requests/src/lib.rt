//! What a request asks: its words, its texts as they are read and checked, and what is built of
//! them.
#![tactic(auto)]

mod nodes;
mod opened;
mod reading;
mod texts;
mod words;

pub use nodes::prepare_nodes;
pub use opened::{Stored, prepare_stored, prepare_under, unopened_ending};
pub use reading::{Checked, read_texts};
pub use words::{Request, read_words};
