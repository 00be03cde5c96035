//! How each `find` of a script looks for its records, and from which end each path is walked: the
//! script is heard, and the plans are said line by line, but nothing is carried out.
#![tactic(auto)]

mod directions;
mod explanation;
mod script;

pub use script::explain_script;
