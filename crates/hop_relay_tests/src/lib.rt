//! Tests of the actors of relays, by the lines that they give, in a crate of their own so that each is proved once.
#![tactic(auto)]

#[cfg(test)]
mod actors;
#[cfg(test)]
mod far_side;
#[cfg(test)]
mod lines;
