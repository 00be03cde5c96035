//! Schemas: reading a schema's text, with the line and the reason of its first fault, and printing
//! a schema.
#![tactic(auto)]

mod field;
mod file;
mod item;
mod names;
mod print;
mod read;
mod schema;

pub use gx_tokens::{Unread, Why};
pub use print::print_schema;
pub use read::read_schema;
pub use schema::{FileDef, FileDefs, LinkDef, LinkDefs, MOST_MEMBERS, Schema};
