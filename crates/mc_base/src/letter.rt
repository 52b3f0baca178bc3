use crate::{Bits, Kind, Priority, Reason};

/// What a frame to an endpoint carries, by version 1 of the payload header, and parts of messages and packets by version 2.
#[derive(Clone, Copy, Debug)]
pub enum Letter<'a> {
    /// A whole message, of 0 to 488 bytes.
    Msg {
        priority: Priority,
        bytes: &'a [u8],
    },
    /// Asks for a channel to the receiver.
    Connect {
        channel: u32,
        kind: Kind,
    },
    Accept {
        channel: u32,
    },
    Reject {
        channel: u32,
        reason: Reason,
    },
    /// The receiver opened its end.
    RecvOpen {
        channel: u32,
    },
    /// The sender opened its end.
    SendOpen {
        channel: u32,
    },
    /// A whole packet, of 0 to 488 bytes.
    Packet {
        channel: u32,
        bytes: &'a [u8],
    },
    /// A scalar, which fits its bits.
    Scalar {
        channel: u32,
        bits: Bits,
        value: u64,
    },
    /// The sender closed its end.
    SendClose {
        channel: u32,
    },
    /// The receiver closed its end.
    RecvClose {
        channel: u32,
    },
    /// A part of a message of `total` bytes, of which `offset` come before these: 1 to 484 bytes.
    MsgPart {
        priority: Priority,
        total: u16,
        offset: u16,
        bytes: &'a [u8],
    },
    /// A part of a packet of `total` bytes, of which `offset` come before these: 1 to 484 bytes.
    PacketPart {
        channel: u32,
        total: u16,
        offset: u16,
        bytes: &'a [u8],
    },
}
