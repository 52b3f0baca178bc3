//! Tests of `board_runner` by its public calls, in a crate of their own so that it is proved once: runs on one thread, runs whose
//! domains are each on a thread of its own, and beside both what two domains do over plain lanes.
#![tactic(auto)]

#[cfg(test)]
mod linked;
#[cfg(test)]
mod serial;
#[cfg(test)]
mod threads;
