//! Tests of paths over links, walked from either end. There is no code here beside them.
#![tactic(auto)]

#[cfg(test)]
mod company;
#[cfg(test)]
mod paths;
#[cfg(test)]
mod row;
