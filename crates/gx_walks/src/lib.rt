//! Paths over links, walked from either end.
#![tactic(auto)]

mod answers;
mod back;
mod choosing;
mod directions;
mod engine;
mod laws;
mod paths;
mod reader;
mod reading;
mod settling;
mod walking;

pub use answers::answer;
pub use choosing::{direction, has_few_conds};
pub use directions::Direction;
pub use engine::answer_path;
pub use laws::either_direction;
pub use paths::path_rows;
pub use reader::LinkReader;
