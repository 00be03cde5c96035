//! Tests of typing an equation and of building its nodes, by public calls. There is no code here
//! beside them. Refused equations, and what is counted of accepted ones, stand in `examples`, where
//! the proved program is held against them.
#![tactic(auto)]

#[cfg(test)]
mod row;
#[cfg(test)]
mod texts;
#[cfg(test)]
mod types;
