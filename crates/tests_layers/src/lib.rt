//! Tests of the layers `actual` and `partition`, by their public calls. There is no code here
//! beside them.
#![tactic(auto)]

#[cfg(test)]
mod actual;
#[cfg(test)]
mod partition;
