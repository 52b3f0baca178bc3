//! Events of several domains, and one order of them in which causes come first.
//!
//! The journals of a board have no clock. What they have is causes: the n-th frame that a domain takes from a peer is the n-th that the peer
//! put, and a buffer comes back only after it was given back.
#![tactic(auto)]

mod causes;
mod event;
mod fault;
mod order;
mod own_order;
mod schedule;

pub use causes::{Cause, Lane, gained, lost};
pub use event::{Event, What};
pub use fault::OrderFault;
pub use order::order_events;
