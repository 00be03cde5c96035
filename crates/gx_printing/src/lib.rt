//! The canonical text of an equation.
#![tactic(auto)]

mod printing;

pub use printing::print_equation;
