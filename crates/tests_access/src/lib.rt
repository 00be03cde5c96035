//! Tests of the access of a node, by public calls. There is no code here beside them.
#![tactic(auto)]

#[cfg(test)]
mod accesses;
#[cfg(test)]
mod row;
#[cfg(test)]
mod texts;
