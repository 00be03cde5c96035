//! Tests of the readers of texts and of what prints them, by their public calls. There is no code
//! here beside them. Refused texts stand in `examples/refused`, where the proved program is held
//! against them.
#![tactic(auto)]

#[cfg(test)]
mod equations;
#[cfg(test)]
mod paths;
#[cfg(test)]
mod row;
#[cfg(test)]
mod schemas;
#[cfg(test)]
mod scripts;
#[cfg(test)]
mod turns;
#[cfg(test)]
mod workload;
