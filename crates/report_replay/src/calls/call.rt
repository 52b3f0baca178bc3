//! Calls as a domain knows them.

ghost use Rattle.std.specs.Prelude.{◌≡◌};
ghost use Rattle.board_model.specs.Answer.{content_size as size_of_content, end_call as asks_of_end, here as here_of, port_of};
ghost use Rattle.std.specs.Prelude.{option_map};
ghost use Rattle.report_replay.specs.PlainCalls.{plain_call, plain_end_call};

use crate::calls::ends::EndCall;
use arrayvec::ArrayVec;
use mc_base::{Bits, EndName, Kind, Local, Priority, Side};

/// A call. It names requests by their places among those that exist, and a lent packet by its place among those that are lent.
#[derive(Drop)]
pub enum DomainCall<'a> {
    Create {
        port: u16,
    },
    Delete {
        port: u16,
    },
    Lookup {
        name: EndName,
    },
    Send {
        port: u16,
        to: EndName,
        priority: Priority,
        bytes: &'a [u8],
    },
    Receive {
        port: u16,
        max: u32,
    },
    /// A request for a message, of which at most `max` bytes are given.
    Request {
        port: u16,
        max: u32,
    },
    /// Asks how many messages are queued.
    Available {
        port: u16,
    },
    Connect {
        port: u16,
        to: EndName,
        kind: Kind,
    },
    Open {
        port: u16,
        side: Side,
        kind: Kind,
    },
    SendPacket {
        port: u16,
        bytes: &'a [u8],
    },
    /// Receives a packet, which is lent.
    LendPacket {
        port: u16,
    },
    RequestPacket {
        port: u16,
    },
    /// Gives a lent packet back.
    Release {
        packet: Option<usize>,
    },
    SendScalar {
        port: u16,
        bits: Bits,
        value: u64,
    },
    ReceiveScalar {
        port: u16,
        bits: Bits,
    },
    Close {
        port: u16,
        side: Side,
    },
    Test {
        request: Option<usize>,
    },
    /// Waits for the first of these requests that is complete. The answer says which it is where `says_place`.
    Wait {
        requests: ArrayVec<Option<usize>, 8>,
        says_place: bool,
    },
    Cancel {
        request: Option<usize>,
    },
    /// Puts a frame as it is.
    Raw {
        to: u8,
        bytes: &'a [u8],
    },
    /// A turn alone.
    Turn,
}

impl DomainCall<'_> {
    /// The port that the call is made at. Calls on requests and names, a raw frame and a turn are made at none.
    fn port(&self) -> u16
        ensures { result ≡ port_of (plain_call self.now) }
    {
        match *self {
            DomainCall::Create { port }
            | DomainCall::Delete { port }
            | DomainCall::Send { port, .. }
            | DomainCall::Receive { port, .. }
            | DomainCall::Request { port, .. }
            | DomainCall::Available { port }
            | DomainCall::Connect { port, .. }
            | DomainCall::Open { port, .. }
            | DomainCall::SendPacket { port, .. }
            | DomainCall::LendPacket { port }
            | DomainCall::RequestPacket { port }
            | DomainCall::SendScalar { port, .. }
            | DomainCall::ReceiveScalar { port, .. }
            | DomainCall::Close { port, .. } => port,
            DomainCall::Lookup { .. }
            | DomainCall::Release { .. }
            | DomainCall::Test { .. }
            | DomainCall::Wait { .. }
            | DomainCall::Cancel { .. }
            | DomainCall::Raw { .. }
            | DomainCall::Turn => 0,
        }
    }

    /// The name of the endpoint that the call is made at.
    pub(crate) fn here(&self, node: u8) -> Local
        ensures { result ≡ here_of node (plain_call self.now) }
    {
        Local {
            node,
            port: self.port(),
        }
    }

    /// How many bytes the call sends.
    pub(crate) fn content_size(&self) -> usize
        ensures { result ≡ size_of_content (plain_call self.now) }
    {
        match *self {
            DomainCall::Send { bytes, .. } | DomainCall::SendPacket { bytes, .. } => bytes.len(),
            _ => 0,
        }
    }
    /// What the call asks of the channel of its endpoint, where so many items are queued.
    pub(crate) fn asks_of_end(&self, queued: usize) -> Option<EndCall>
        ensures { option_map plain_end_call result ≡ asks_of_end queued (plain_call self.now) }
    {
        match *self {
            DomainCall::Open { side, kind, .. } => Some(EndCall::Opens { side, kind }),
            DomainCall::SendPacket { .. } => Some(EndCall::Sends { kind: Kind::Packet }),
            DomainCall::SendScalar { .. } => Some(EndCall::Sends { kind: Kind::Scalar }),
            DomainCall::LendPacket { .. } | DomainCall::RequestPacket { .. } => {
                let kind = Kind::Packet;
                Some(EndCall::Receives { kind, queued })
            }
            DomainCall::ReceiveScalar { .. } => {
                let kind = Kind::Scalar;
                Some(EndCall::Receives { kind, queued })
            }
            DomainCall::Close { side, .. } => Some(EndCall::Closes { side }),
            _ => None,
        }
    }
}
