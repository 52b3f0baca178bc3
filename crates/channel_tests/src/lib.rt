//! Tests of the ends of channels and of scalars, by the public calls of these crates, in a crate of their own so that each is
//! proved once.
#![tactic(auto)]

#[cfg(test)]
mod calls;
#[cfg(test)]
mod letters;
#[cfg(test)]
mod scalars;
