//! Tests of `domain_core` by its public calls, in a crate of their own so that the domain is proved once.
#![tactic(auto)]

#[cfg(test)]
mod tests;
