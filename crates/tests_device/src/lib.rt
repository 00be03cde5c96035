//! Tests of a database on a device, by the public calls: its bytes, worked out by hand from the
//! layout, what stands on it where a call of it fails, devices that are attached in turn, a leaf of
//! many pages, and two plays whose pages are held in few frames and in many. There is no code here
//! beside them.
#![tactic(auto)]

#[cfg(test)]
mod attached;
#[cfg(test)]
mod bounded;
#[cfg(test)]
mod databases;
#[cfg(test)]
mod faults;
#[cfg(test)]
mod inserts;
#[cfg(test)]
mod layouts;
#[cfg(test)]
mod refusals;
#[cfg(test)]
mod rows;
