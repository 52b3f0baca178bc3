//! Tests of `actor_lang` by its public calls, in a crate of their own so that it is proved once.
#![tactic(auto)]

#[cfg(test)]
mod calls;
#[cfg(test)]
mod limits;
#[cfg(test)]
mod reasons;
#[cfg(test)]
mod relays;
