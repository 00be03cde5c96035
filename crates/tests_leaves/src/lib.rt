//! Tests of the device in memory and of leaves in memory, by their public calls. There is no code
//! here beside them.
#![tactic(auto)]

#[cfg(test)]
mod devices;
#[cfg(test)]
mod leaves;
