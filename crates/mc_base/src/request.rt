use crate::{Reason, Refusal};

/// The size of a received message, and how many of its bytes the caller got.
#[derive(Clone, Copy, Debug, PartialEq, Eq)]
pub struct Got {
    /// The size of the message in bytes, 0 to 8,192.
    pub size: u32,
    /// How many of its first bytes the caller got. It is less than `size` where the caller asked for fewer bytes.
    pub given: u32,
}

/// The id of a request. A key is used again once its request is gone; the serials differ then.
#[derive(Clone, Copy, Debug, Default, PartialEq, Eq)]
pub struct RequestId {
    /// Any number but 4,294,967,295.
    pub key: u32,
    /// The number of requests of this domain before this one, modulo 2^64.
    pub serial: u64,
}

/// The id of a lent packet. Its buffer may be lent again; the serials differ then.
#[derive(Clone, Copy, Debug, PartialEq, Eq)]
pub struct PacketId {
    /// The number of the domain that sent the packet, 0 to 7.
    pub peer: u8,
    /// The number of the buffer of the packet's first frame in the lane from that domain, 0 to 255.
    pub buffer: u16,
    /// The number of packets that were lent before, modulo 2^64.
    pub serial: u64,
}

/// A buffer that came from a peer and is held until it is given back.
#[derive(Clone, Copy, Debug, PartialEq, Eq)]
pub struct Slot {
    /// The number of the domain that it came from, 0 to 7.
    pub peer: u8,
    /// The number of the buffer in the lane from that domain, 0 to 255.
    pub buffer: u16,
}

/// How a request ended.
#[derive(Clone, Copy, Debug, PartialEq, Eq)]
pub enum Done {
    /// The address of the endpoint that was looked up.
    Address(u32),
    /// The connection was accepted.
    Accepted,
    /// The connection was rejected.
    Rejected(Reason),
    /// A message, of which the caller gets the first bytes.
    Message(Got),
    /// A packet, which is lent from now on.
    Packet(PacketId),
    /// The request ended with a refusal.
    Ended(Refusal),
}
