//! Tests of the lines of a script that comes in pieces. There is no code here beside them.
#![tactic(auto)]

#[cfg(test)]
mod pieces;
