//! What a runner gives a domain beside its script: the ends of its links, which ring a bell or do not, and a pace, by which it passes the
//! time between two tries. So one runner serves domains that poll and domains that sleep.
#![tactic(auto)]

mod pace;
mod recv;
mod send;
mod threads;

pub use pace::{Pace, Polls, Sleeps};
pub use recv::StationRecv;
pub use send::StationSend;
pub use threads::may_cross_threads;
