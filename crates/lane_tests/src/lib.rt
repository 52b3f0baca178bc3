//! Tests of lanes by their public calls, in a crate of their own so that each crate is proved once.
#![tactic(auto)]

#[cfg(test)]
mod deeds;
#[cfg(test)]
mod finished;
#[cfg(test)]
mod plain;
#[cfg(test)]
mod rings;
