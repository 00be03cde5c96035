//! Tests of files of each kind on a device in memory: by hand, and beside a map through many random
//! steps. There is no code here beside them.
#![tactic(auto)]

#[cfg(test)]
mod calls;
#[cfg(test)]
mod cycles;
#[cfg(test)]
mod files;
#[cfg(test)]
mod loads;
#[cfg(test)]
mod random_steps;
