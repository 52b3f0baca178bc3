//! The events of a report, in one order in which causes come first.
#![tactic(auto)]

mod events;
mod fault;
mod replay;

pub use events::events_of;
pub use fault::EventFault;
