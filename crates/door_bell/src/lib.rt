//! A bell: one thread sleeps until another rings. A bell has one sleeper and up to 14 ringers.
//!
//! Before it sleeps, the sleeper clears the news of all ringers, looks once more at what it waits for, and arms the bell. A ringer
//! first posts its news and then rings. So what came after that look is found by the arming, or the ringing finds the bell armed.
//! docs/ARCHITECTURE.md, "Doorbells", has the table of the kinds of step.
#![tactic(auto)]

mod bell;
mod bell_recv;
mod bell_send;
mod fault;
mod kinds;
mod law;
mod meeting;
mod ringer;
mod rule;
mod sleeper;
mod steps;
mod threads;
mod view;
mod words;

pub use bell::Bell;
pub use bell_recv::BellRecv;
pub use bell_send::BellSend;
pub use fault::BellFault;
pub use law::asleep_is_rung;
pub use ringer::Ringer;
pub use sleeper::Sleeper;
pub use threads::may_cross_threads;
