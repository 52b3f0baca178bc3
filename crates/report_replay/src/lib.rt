//! Replays a domain over plain lists: its state, what it does with a frame that it takes, and what a call answers and does.
#![tactic(auto)]

mod calls;
mod changes;
mod channel;
mod dealing;
mod endpoint;
mod ends;
mod fates;
mod frame_names;
mod frames;
mod held;
mod item;
mod judging;
mod labels;
mod lists;
mod looks;
mod lookups;
mod names;
mod opening;
mod owed;
mod part;
mod peer;
mod queues;
mod request;
mod state;
mod taking;
mod verdict;
mod way;

pub use calls::DomainCall;
pub use channel::{ChannelEnd, Stage};
pub use endpoint::Endpoint;
pub use frame_names::FrameNames;
pub use held::HeldFrame;
pub use item::Item;
pub use labels::Labels;
pub use part::{Carrier, Part};
pub use peer::{Announcement, Peer, Reply};
pub use request::{Asked, LentPacket, Outcome, Request};
pub use state::State;
