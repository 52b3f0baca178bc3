//! Tests of the words of a ring and of rings by their public calls, in a crate of their own so that each crate is proved once.
#![tactic(auto)]

#[cfg(test)]
mod meetings;
#[cfg(test)]
mod rings;
#[cfg(test)]
mod words;
