//! The channel that a frame belongs to.

use mc_base::Letter;
use name_service::{Said, read_frame};

/// A channel, by the domain of its sender, which numbers it.
#[derive(Clone, Copy, Debug, PartialEq, Eq)]
pub struct Channel {
    pub domain: u8,
    pub number: u32,
}

/// Returns the channel of a frame that one domain puts to another, or `None` where it belongs to none. A channel's receiver answers its sender:
/// what it puts has the number of the domain to which it goes.
pub fn channel_of(frame: &[u8], from: u8, to: u8) -> Option<Channel> {
    let Said::Sends { letter, .. } = read_frame(frame) else {
        return None;
    };
    match letter {
        Letter::Msg { .. } | Letter::MsgPart { .. } => None,
        Letter::Connect { channel, .. }
        | Letter::SendOpen { channel }
        | Letter::Packet { channel, .. }
        | Letter::PacketPart { channel, .. }
        | Letter::Scalar { channel, .. }
        | Letter::SendClose { channel } => Some(Channel {
            domain: from,
            number: channel,
        }),
        Letter::Accept { channel }
        | Letter::Reject { channel, .. }
        | Letter::RecvOpen { channel }
        | Letter::RecvClose { channel } => Some(Channel {
            domain: to,
            number: channel,
        }),
    }
}
