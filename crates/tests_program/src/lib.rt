//! Tests of the whole program, request by request. There is no code here beside them.
#![tactic(auto)]

#[cfg(test)]
mod bounded;
#[cfg(test)]
mod partner;
#[cfg(test)]
mod paths;
#[cfg(test)]
mod requests;
#[cfg(test)]
mod row;
#[cfg(test)]
mod shares;
