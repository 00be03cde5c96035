//! A machine in memory, which tells all that it holds and each moment that went by. Tests run on
//! it.
#![tactic(auto)]

mod counter;
mod crash;
mod memory;
mod names;
mod trace;

pub use crash::Choice;
pub use memory::MemoryMachine;
