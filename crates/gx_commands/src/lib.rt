//! The commands of a script, its lines, and the words of a line.
#![tactic(auto)]

mod command;
mod copies;
mod lines;
mod path;
mod rule;
mod turns;
mod words;

pub use command::{Change, Changes, Command, Cond, Conds, Find, LineWhy, NoCommand, Of, OrderBy};
pub use lines::{LONGEST_LINE, LONGEST_SCRIPT, ScriptLines};
pub use path::{Leg, Legs, MOST_LEGS, PathQuery, Way};
pub use rule::allowed;
pub use turns::read_turn;
pub use words::{LineWord, are_characters, are_words, is_comment, is_end, take_word};
