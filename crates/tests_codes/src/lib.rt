//! Tests of the codes of ints and texts, and of bodies with values by their codes, by their public
//! calls. There is no code here beside them.
#![tactic(auto)]

#[cfg(test)]
mod bodies;
#[cfg(test)]
mod codes;
