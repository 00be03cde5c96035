//! Tests of sessions that take turns on an engine. There is no code here beside them.
#![tactic(auto)]

#[cfg(test)]
mod engines;
#[cfg(test)]
mod reads;
#[cfg(test)]
mod row;
#[cfg(test)]
mod turns;
