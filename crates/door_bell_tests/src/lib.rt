//! Tests of bells and of ends that ring, in a crate of their own so that `door_bell` is proved once.
#![tactic(auto)]

#[cfg(test)]
mod bed;
#[cfg(test)]
mod bells;
#[cfg(test)]
mod lanes;
