//! Tests of what a domain keeps: endpoints, queues, requests and its journal, by the public calls of these crates, in a
//! crate of their own so that each is proved once.
#![tactic(auto)]

#[cfg(test)]
mod endpoints;
#[cfg(test)]
mod journals;
#[cfg(test)]
mod plain_queues;
#[cfg(test)]
mod queues;
#[cfg(test)]
mod requests;
