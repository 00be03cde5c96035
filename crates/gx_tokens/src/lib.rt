//! The tokens of schemas and equations, and reading one of them after another: which token is the
//! first fault of a text, why, and in which line it stands.
#![tactic(auto)]

mod blanks;
mod fault;
mod number;
mod quoted;
mod reading;
mod split;
mod token;
mod why;

pub use blanks::after_blanks;
pub use fault::{Fault, ReadError, fault_at, line_of, unread};
pub use number::{natural_number, signed_number};
pub use quoted::{push_quoted, quoted_value};
pub use reading::{
    read_close, read_comma, read_comma_or_close, read_equals, read_number, read_open, read_word,
    unexpected,
};
pub use split::split_quoted;
pub use token::{Token, next_token};
pub use why::{Unread, Why};
