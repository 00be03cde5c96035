//! Tests of plays of scripts, in which the program is compared with the plain one. There is no code
//! here beside them.
#![tactic(auto)]

#[cfg(test)]
mod linked;
#[cfg(test)]
mod paths;
#[cfg(test)]
mod plays;
#[cfg(test)]
mod row;
