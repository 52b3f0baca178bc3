//! Tests of images of rings, of the writes that make them and of the numbers of their buffers, by the public calls of `ring_trace`
//! and `ring_numbers`, in a crate of their own so that each crate is proved once.
#![tactic(auto)]

#[cfg(test)]
mod faults;
#[cfg(test)]
mod images;
#[cfg(test)]
mod numbers;
#[cfg(test)]
mod rings;
