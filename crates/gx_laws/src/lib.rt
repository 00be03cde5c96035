//! Laws of truth values, orderings, numbers and lists that `std` doesn't have, for the proofs of
//! the crates above, and two definitions that several crates share.
#![tactic(auto)]
