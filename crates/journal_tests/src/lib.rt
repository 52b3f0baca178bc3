//! Tests of the text of a journal's entries, by the public calls of `mc_journal`, in a crate of their own so that it is
//! proved once.
#![tactic(auto)]

#[cfg(test)]
mod tests;
