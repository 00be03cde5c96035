//! Equations: what they are, and how their texts are read.
#![tactic(auto)]

mod arguments;
mod definitions;
mod equation;
mod heads;
mod lines;
mod making;
mod reading;
mod terms;

pub use equation::{Definition, Definitions, Equation, Lines, Names, Side, Term};
pub use heads::{Head, Linkset};
pub use reading::read_equation;
