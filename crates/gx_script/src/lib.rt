//! The lines of a script and the commands that they mean.
#![tactic(auto)]

mod keywords;
mod names;
mod parts;
mod reading;
mod values;

pub use keywords::after_keyword;
pub use names::{read_file, read_link};
pub use parts::where_part;
pub use reading::read_command;
