//! Tests of what leaves hold after commands, under each layer. There is no code here beside them.
#![tactic(auto)]

#[cfg(test)]
mod readings;
#[cfg(test)]
mod row;
#[cfg(test)]
mod structures;
#[cfg(test)]
mod walks;
