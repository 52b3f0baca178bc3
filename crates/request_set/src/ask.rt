//! What a request asks for, and how it is complete.

ghost use Rattle.std.specs.Prelude.{◌≡◌};
ghost use Rattle.request_set.specs.Requests.{receives_at};

use mc_base::{EndName, Local, Reason, Refusal, Slot};

/// What a request asks for.
#[derive(Clone, Copy, Debug, PartialEq, Eq)]
pub enum Ask {
    /// The address of the endpoint of this name.
    Lookup(EndName),
    /// The answer to the connect of this channel number.
    Connect(u32),
    /// A message to this endpoint, of which the caller gets at most so many bytes, 0 to 4,294,967,295.
    Message(Local, u32),
    /// A packet to this endpoint.
    Packet(Local),
}

/// How a request is complete.
#[derive(Clone, Copy, Debug, PartialEq, Eq)]
pub enum Complete {
    /// The endpoint that was looked up has this address.
    Address(u32),
    /// The connection was accepted.
    Accepted,
    /// The connection was rejected.
    Rejected(Reason),
    /// A message came in this buffer, of which the caller gets at most so many bytes.
    Message(Slot, u32),
    /// A packet came in this buffer.
    Packet(Slot),
    /// The request ended with a refusal.
    Ended(Refusal),
}

impl Ask {
    /// Whether this is a receive at the endpoint.
    pub(crate) fn receives_at(self, local: Local) -> bool
        ensures { result ≡ receives_at local self }
    {
        match self {
            Ask::Message(at, _) | Ask::Packet(at) => at.node == local.node && at.port == local.port,
            Ask::Lookup(_) | Ask::Connect(_) => false,
        }
    }
}
