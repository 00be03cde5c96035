//! Tests of pages, byte for byte, of the frames that hold them, of their owners on a device, of a
//! commit with a crash at each of its moments, and of large devices, by their public calls. There
//! is no code here beside them.
#![tactic(auto)]

#[cfg(test)]
mod bytes;
#[cfg(test)]
mod crashes;
#[cfg(test)]
mod entry_pages;
#[cfg(test)]
mod few_frames;
#[cfg(test)]
mod frames;
#[cfg(test)]
mod inner_pages;
#[cfg(test)]
mod journals;
#[cfg(test)]
mod large;
#[cfg(test)]
mod owned_pages;
#[cfg(test)]
mod sparse;
