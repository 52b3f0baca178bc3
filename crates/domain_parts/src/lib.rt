//! The inside of a domain: what the calls of `domain_core` are made of. It is not a surface for users, who find all that they name
//! in `domain_core`.
//!
//! [`Holdings`] is what a domain holds, as one value. Its methods are a turn, and what each call does after its turn. It stands on
//! the ends towards the peers ([`Ends`], [`Link`]) and the parts: endpoints, requests, owed replies, and the verdict on a frame.
#![tactic(auto)]

mod announcements;
mod carrying;
mod dealing;
mod endpoints;
mod ends;
mod fates;
mod holdings;
mod link;
mod link_room;
mod linking;
mod messages;
mod noting;
mod outgoing;
mod own_lane;
mod parts;
mod peer;
mod peer_lane;
mod peers;
mod replies;
mod requests;
mod room;
mod wait_fault;

pub use buffer_book::Places;
pub use carrying::MeetingEnds;
pub use ends::Ends;
pub use fates::fault_fate;
pub use holdings::{Holdings, carry};
pub use link::Link;
pub use link_room::LinkRoom;
pub use peer::Peer;
pub use peer_lane::PeerLane;
pub use replies::{Replies, Reply};
pub use room::{CALL_BYTES, CALL_ENTRIES};
pub use wait_fault::WaitFault;
