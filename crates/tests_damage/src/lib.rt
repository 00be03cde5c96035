//! Tests of devices with damaged blocks: what `inspect` says of each, and that `run` returns.
//! There is no code here beside them.
#![tactic(auto)]

#[cfg(test)]
mod cycles;
#[cfg(test)]
mod devices;
#[cfg(test)]
mod members;
#[cfg(test)]
mod roots;
#[cfg(test)]
mod zeros;
