//! Messages and packets on their way to a peer.

ghost use Rattle.std.specs.Prelude.{◌≡◌, ◌≤◌, ◌<◌, length};
ghost use Rattle.std.specs.Int.{div_ceil};
ghost use Rattle.mc_base.specs.Letter.{carried, in_part, piece, saying_of, whole};
ghost use Rattle.mc_base.specs.Limits.{single_size, item_size};
ghost use Rattle.domain_parts.specs.Pieces.{carrier_in};

use crate::parts::Carrier;
use mc_base::{Letter, SINGLE_SIZE};

/// A message or packet that is sent: to which peer, from which address and to which, what carries it, and its bytes.
#[derive(Clone, Copy, Debug)]
pub struct Outgoing<'a> {
    pub peer: u8,
    pub source: u32,
    pub destination: u32,
    pub carrier: Carrier,
    pub bytes: &'a [u8],
}

impl<'a> Outgoing<'a> {
    /// Returns in how many frames it goes: in one where a frame carries all its bytes, and otherwise in parts of `cut` bytes.
    pub fn frames(&self, cut: usize) -> usize
        requires { 0 < cut }
        ensures single { length self.now.bytes.now ≤ single_size → result ≡ 1 }
        ensures parts { single_size < length self.now.bytes.now → result ≡ div_ceil (length self.now.bytes.now) cut }
    {
        if self.bytes.len() <= SINGLE_SIZE {
            1
        } else {
            self.bytes.len().div_ceil(cut)
        }
    }

    /// Returns the letter that carries all its bytes.
    pub fn whole(&self) -> Letter<'a>
        ensures { saying_of result ≡ whole (carried (carrier_in self.now.carrier) self.now.bytes.now) }
    {
        let bytes = self.bytes;
        match self.carrier {
            Carrier::Message(priority) => Letter::Msg { priority, bytes },
            Carrier::Packet(channel) => Letter::Packet { channel, bytes },
        }
    }

    /// Returns the part that carries these of its bytes, which begin at an offset.
    pub fn part(&self, offset: usize, bytes: &'a [u8]) -> Letter<'a>
        requires short { length self.now.bytes.now ≤ item_size }
        requires within { offset ≤ item_size }
        ensures { saying_of result ≡ in_part (piece (carrier_in self.now.carrier) (length self.now.bytes.now) offset bytes.now) }
    {
        let total = self.bytes.len() as u16;
        let offset = offset as u16;
        match self.carrier {
            Carrier::Message(priority) => Letter::MsgPart {
                priority,
                total,
                offset,
                bytes,
            },
            Carrier::Packet(channel) => Letter::PacketPart {
                channel,
                total,
                offset,
                bytes,
            },
        }
    }
}
