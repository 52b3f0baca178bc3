//! Tests of `buffer_book` by its public calls, in a crate of their own so that it is proved once.
#![tactic(auto)]

#[cfg(test)]
mod frames;
#[cfg(test)]
mod lending;
#[cfg(test)]
mod steps;
#[cfg(test)]
mod withdrawing;
