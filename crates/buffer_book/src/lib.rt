//! The buffers that a domain took from its peers and keeps: in which item each is, whether that is in a queue or lent, and
//! where the buffer's part of the content lies.
//!
//! A book takes memory where it is made. No other call takes any.
#![tactic(auto)]

mod book;
mod cell;
mod held;
mod places;
mod shelf;
mod shelves;
mod threads;

pub use book::BufferBook;
pub use mc_base::{BufInvalid, Buffer, NoMemory, PacketId, Slot};
pub use places::Places;
pub use threads::may_cross_threads;
