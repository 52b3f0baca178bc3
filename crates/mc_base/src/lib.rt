//! The plain words of the board: names, limits, buffers, refusals, requests, letters, announcements and faults.
//!
//! Every other crate uses this one. `specs/` defines what a frame, a letter and a name announcement are.
#![tactic(auto)]

mod announcement;
mod buffer;
mod channel;
mod fate;
mod fault;
mod laws;
mod letter;
mod limits;
mod name;
mod pieces;
mod priority;
mod refusal;
mod request;

pub use announcement::Ns;
pub use buffer::Buffer;
pub use channel::{Bits, Kind, Reason, Side};
pub use fate::Fate;
pub use fault::{Fault, FrameFault, LetterFault, NsFault};
pub use laws::limits_are_those_defined;
pub use letter::Letter;
pub use limits::{
    BUFFER_SIZE, FIRST_ADDRESS, FRAME_HEADER_SIZE, ITEM_SIZE, LETTER_HEADER_SIZE, LONGEST_BUFFER,
    LONGEST_FRAME, MAX_ASKED, MAX_CHANNELS, MAX_DOMAINS, MAX_ENDPOINTS, MAX_ENDPOINTS_EVER,
    MAX_LINK_SIZE, MAX_NODES, MAX_OWED_ANNOUNCEMENTS, MAX_OWED_REPLIES, MAX_POOL, MAX_REQUESTS,
    MAX_RING_SIZE, NAME_SERVICE_ADDRESS, NAME_SIZE, NAMES_KNOWN, NS_SIZE, PIECE_SIZE,
    POOL_BUFFER_SIZE, SHORTEST_BUFFER, SINGLE_SIZE, TURN_FRAMES,
};
pub use name::{EndName, Local};
pub use pieces::frames_needed;
pub use priority::Priority;
pub use refusal::{BufInvalid, Full, NoMemory, Refusal, RequestLimit, SclSize};
pub use request::{Done, Got, PacketId, RequestId, Slot};
