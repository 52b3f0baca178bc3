use std::fmt::{self, Display, Formatter, Write};
use thiserror::Error;

/// Memory is out. Any call that allocates may return it, at any time.
#[derive(Clone, Copy, Debug, PartialEq, Eq, Error)]
#[error("out of memory")]
pub struct NoMemory;

/// No lent packet has the id.
#[derive(Clone, Copy, Debug, PartialEq, Eq, Error)]
#[error("no lent packet has this id")]
pub struct BufInvalid;

/// The scalar has another size.
#[derive(Clone, Copy, Debug, PartialEq, Eq, Error)]
#[error("the front scalar has another size")]
pub struct SclSize;

/// No more names can be known.
#[derive(Clone, Copy, Debug, PartialEq, Eq, Error)]
#[error("64 names of this domain are known, and no more can be")]
pub struct Full;

/// 64 requests exist, and no more can.
#[derive(Clone, Copy, Debug, PartialEq, Eq, Error)]
#[error("64 requests exist; take a result or cancel a request first")]
pub struct RequestLimit;

/// Why a call of a domain is refused. E is the endpoint that the call is made at.
#[derive(Clone, Copy, Debug, PartialEq, Eq)]
pub enum Refusal {
    /// The node is not below the domain's number of nodes.
    NodeInvalid,
    /// E is live.
    ExistsAlready,
    /// 64 endpoint records are in use.
    EndpLimit,
    /// 60,000 endpoints were created.
    AddressSpent,
    /// E is not live.
    EndpInvalid,
    /// The named endpoint is of this domain and not live, or of another and not known from there.
    PeerInvalid,
    /// E has a channel, at a call on messages.
    OnChannel,
    /// E has a channel, at a call that needs it to have none.
    ChanConnected,
    /// E's queue is not empty, or E has a waiting receive.
    EndpBusy,
    /// All 65,535 channel numbers are used.
    ChanLimit,
    /// 64 requests exist.
    RequestLimit,
    /// E has no channel, or its stage is connecting.
    NotConnected,
    /// E is the other end of its channel.
    ChanDirection,
    /// The channel is of the other kind.
    ChanType,
    /// The channel is closed for this call.
    ChanClosed,
    /// The channel is open already.
    AlreadyOpen,
    /// The channel is not open for this call.
    NotOpen,
    /// A message of more than 8,192 bytes, or one that needs more buffers than the lane to the peer has.
    MsgSize,
    /// A packet of more than 8,192 bytes, or one that needs more buffers than the lane to the peer has.
    PktSize,
    /// After the call's turn, fewer buffers of the lane to the peer are free than the call needs.
    NoBuffer,
    /// The queue is empty.
    Empty,
    /// The front item's size is another.
    SclSize,
    /// No lent packet has this id.
    BufInvalid,
    /// No request has this id.
    RequestInvalid,
    /// The request is not complete.
    Pending,
    /// The request is complete.
    TooLate,
    /// The limit of turns was made, and no named request is complete.
    Timeout,
    /// The peer is neither linked nor the domain itself.
    LinkInvalid,
    /// The frame has no fault.
    RawSound,
}

impl Refusal {
    /// Returns the text that `Display` writes.
    fn text(self) -> &'static str {
        match self {
            Refusal::NodeInvalid => "the domain has no such node",
            Refusal::ExistsAlready => "the endpoint exists already",
            Refusal::EndpLimit =>
                "64 endpoint records are in use; delete an endpoint, then turn until its end is announced",
            Refusal::AddressSpent =>
                "the domain has created 60,000 endpoints and has no address left",
            Refusal::EndpInvalid => "the endpoint does not exist; create it first",
            Refusal::PeerInvalid => "the named endpoint is not known here; look it up first",
            Refusal::OnChannel => "the endpoint has a channel; send messages from another endpoint",
            Refusal::ChanConnected => "the endpoint has a channel already; use another endpoint",
            Refusal::EndpBusy =>
                "the endpoint has queued messages or a waiting receive; receive or cancel first",
            Refusal::ChanLimit => "the domain has used all 65,535 channel numbers",
            Refusal::RequestLimit => "64 requests exist; take a result or cancel a request first",
            Refusal::NotConnected => "the endpoint is not connected; connect a channel first",
            Refusal::ChanDirection => "the endpoint is the other end of its channel",
            Refusal::ChanType => "the channel is of the other kind (packets or scalars)",
            Refusal::ChanClosed => "the channel is closed for this call",
            Refusal::AlreadyOpen => "this end of the channel is open already",
            Refusal::NotOpen => "the channel is not open for this call; open both ends first",
            Refusal::MsgSize =>
                "the message has more than 8,192 bytes or needs more buffers than the lane has; split it",
            Refusal::PktSize =>
                "the packet has more than 8,192 bytes or needs more buffers than the lane has; split it",
            Refusal::NoBuffer =>
                "too few buffers to the peer are free; try again after the peer has made a turn",
            Refusal::Empty => "the queue is empty; try again after a turn",
            Refusal::SclSize => "the front scalar has another size",
            Refusal::BufInvalid => "no lent packet has this id",
            Refusal::RequestInvalid => "no request has this id",
            Refusal::Pending => "the request is not complete; try again after a turn",
            Refusal::TooLate => "the request is complete; take its result",
            Refusal::Timeout => "no named request was complete within the limit of turns",
            Refusal::LinkInvalid => "the peer is neither linked nor the domain itself",
            Refusal::RawSound => "the frame has no fault; only faulty frames are put raw",
        }
    }
}

impl Display for Refusal {
    fn fmt<W: Write>(&self, f: &mut Formatter<W>) -> fmt::Result {
        f.write_str(self.text())
    }
}

impl std::error::Error for Refusal {}
