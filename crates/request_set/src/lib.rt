//! The requests of a domain: lookups, connects and receives that are answered later.
//!
//! A set takes memory where it is made. No other call takes any.
#![tactic(auto)]

mod ask;
mod set;
mod threads;

pub use ask::{Ask, Complete};
pub use set::RequestSet;
pub use threads::may_cross_threads;
