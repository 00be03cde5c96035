//! Tests of requests on a device, crashed at each of their moments or with each of their calls
//! failed, and of devices of the second layout, on a machine that keeps only the blocks that were
//! written. There is no code here beside them.
#![tactic(auto)]

#[cfg(test)]
mod crashes;
#[cfg(test)]
mod databases;
#[cfg(test)]
mod large;
#[cfg(test)]
mod noting;
#[cfg(test)]
mod row;
#[cfg(test)]
mod sparse;
