//! Tests of `report_replay` by its public calls, in a crate of their own so that it is proved once.
#![tactic(auto)]

#[cfg(test)]
mod calls;
#[cfg(test)]
mod frames;
#[cfg(test)]
mod returned;
