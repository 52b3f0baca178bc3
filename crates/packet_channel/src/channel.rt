//! The record of one end.

ghost use Rattle.std.specs.Prelude.{◌≡◌};
ghost use Rattle.board_model.specs.ChannelEnds.{connecting_end, accepted_end};
ghost use Rattle.packet_channel.specs.End.{end_of};

use mc_base::{Kind, Side};

/// How far an end of a channel is.
#[derive(Clone, Copy, Debug, PartialEq, Eq)]
pub enum Stage {
    /// The sender's Connect has no answer yet.
    Connecting,
    /// The connection was accepted, and this end is not open yet.
    Connected,
    /// This end is open.
    Open,
    /// This end is closed.
    Closed,
}

/// One end of a channel. The channel ends where both its ends are closed.
#[derive(Clone, Copy, Debug, PartialEq, Eq)]
pub struct Channel {
    pub side: Side,
    pub kind: Kind,
    /// The sender's domain, which numbered the channel.
    pub owner: u8,
    pub number: u32,
    /// The domain of the other end, and the address there.
    pub peer: u8,
    pub peer_addr: u32,
    pub stage: Stage,
    /// Whether the other end was opened, and closed.
    pub far_open: bool,
    pub far_closed: bool,
}

impl Channel {
    /// Makes the sender's end of a channel whose Connect is put.
    pub fn connecting(owner: u8, number: u32, kind: Kind, peer: u8, peer_addr: u32) -> Channel
        ensures end { end_of result ≡ connecting_end kind owner number peer peer_addr }
        ensures number { result.number ≡ number }
    {
        Channel {
            side: Side::Sender,
            kind,
            owner,
            number,
            peer,
            peer_addr,
            stage: Stage::Connecting,
            far_open: false,
            far_closed: false,
        }
    }

    /// Makes the receiver's end of a channel whose Connect is accepted.
    pub fn accepted(owner: u8, number: u32, kind: Kind, peer: u8, peer_addr: u32) -> Channel
        ensures end { end_of result ≡ accepted_end kind owner number peer peer_addr }
        ensures number { result.number ≡ number }
    {
        Channel {
            side: Side::Receiver,
            kind,
            owner,
            number,
            peer,
            peer_addr,
            stage: Stage::Connected,
            far_open: false,
            far_closed: false,
        }
    }
}
