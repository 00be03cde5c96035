//! Tests of values and of tokens, by their public calls. There is no code here beside them.
#![tactic(auto)]

#[cfg(test)]
mod tokens;
#[cfg(test)]
mod values;
