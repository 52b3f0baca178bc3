ghost use Rattle.std.specs.Prelude.{◌≡◌, ◌≤◌, ◌++◌, ◌∷◌, [], IfOk, None, Some, length};
ghost use Rattle.byteorder.specs.Endian.{little_bytes};
ghost use Rattle.mc_base.specs.Letter.{bytes_of_bits, carried, plain_letter};
ghost use Rattle.board_model.specs.ChannelEnds.{accepted_end};
ghost use Rattle.board_model.specs.TakenFrames.{channel_item, message_item, reply_to};
ghost use Rattle.report_replay.specs.Replayed.{most_bytes};
ghost use Rattle.report_replay.specs.Ends.{came_in, item_by};
ghost use Rattle.report_replay.specs.ShortLetters.{IsShort};
ghost use Rattle.report_replay.specs.Views.{end_of, reply_of};

use crate::channel::{ChannelEnd, Stage};
use crate::item::Item;
use crate::part::{Carrier, Part};
use crate::peer::Reply;
use board_model::Seq;
use mc_base::{Bits, Kind, Letter, NoMemory, Reason, Side};
use std::alloc::Global;

/// Where a letter comes from and where it goes, and what its last frame is named by.
#[derive(Clone, Copy)]
pub(crate) struct Way {
    pub(crate) peer: u8,
    pub(crate) name: u32,
    pub(crate) source: u32,
    pub(crate) destination: u32,
}

impl Way {
    /// The reply to a Connect: it goes back to where that came from.
    pub(crate) fn reply(&self, channel: u32, reason: Option<Reason>) -> Reply
        ensures { reply_of result ≡ reply_to self.now.source self.now.destination channel reason }
    {
        Reply {
            source: self.destination,
            destination: self.source,
            channel,
            reason,
        }
    }

    /// The end that the receiver has after a Connect is accepted.
    pub(crate) fn accepted(&self, number: u32, kind: Kind) -> ChannelEnd
        ensures { end_of result ≡ accepted_end kind self.now.peer number self.now.peer self.now.source }
    {
        ChannelEnd {
            side: Side::Receiver,
            kind,
            owner: self.peer,
            number,
            peer: self.peer,
            peer_address: self.source,
            stage: Stage::Connected,
            far_open: false,
            far_closed: false,
        }
    }

    /// What the letter of a single frame brings, as an item.
    pub(crate) fn item(&self, alloc: Global, letter: &Letter<'_>) -> Result<Item, NoMemory>
        requires { IsShort (plain_letter letter.now) }
        ensures { IfOk result (λ i. i ≡ item_by self.now (self.now.name ∷ []) (plain_letter letter.now)) }
    {
        let earlier = Vec::new(alloc);
        match *letter {
            Letter::Msg { priority, bytes }
            | Letter::MsgPart {
                priority,
                bytes,
                ..
            } => { Ok(self.message(priority.number(), copied(alloc, bytes)?, earlier)) }
            Letter::Packet { channel, bytes } | Letter::PacketPart { channel, bytes, .. } => {
                Ok(self.data(channel, copied(alloc, bytes)?, earlier))
            }
            Letter::Scalar {
                channel,
                bits,
                value,
            } => Ok(self.data(channel, scalar_bytes(alloc, bits, value)?, earlier)),
            Letter::Connect { .. }
            | Letter::Accept { .. }
            | Letter::Reject { .. }
            | Letter::RecvOpen { .. }
            | Letter::SendOpen { .. }
            | Letter::SendClose { .. }
            | Letter::RecvClose { .. } => Ok(self.message(0, Seq::new(Vec::new(alloc)), earlier)),
        }
    }

    /// A message or packet that is whole, as an item. It keeps the bytes, and the names of the frames before the last.
    pub(crate) fn whole_item(&self, part: Part, earlier: Vec<u32>) -> Item
        requires { length part.content ≤ most_bytes }
        ensures { result ≡ item_by self.now (earlier.items ++ self.now.name ∷ []) (carried part.carrier part.content) }
    {
        let Part {
            carrier,
            content,
            ..
        } = part;
        let content = Seq::new(content);
        match carrier {
            Carrier::Message(priority) => self.message(priority.number(), content, earlier),
            Carrier::Packet(channel) => self.data(channel, content, earlier),
        }
    }

    /// A message as an item.
    fn message(&self, priority: u8, content: Seq<u8>, earlier: Vec<u32>) -> Item
        requires { length content ≤ most_bytes }
        ensures { result ≡ message_item self.now.peer (came_in (earlier.items ++ self.now.name ∷ [])) self.now.source priority content }
    {
        Item {
            peer: self.peer,
            source: self.source,
            priority,
            channel: None,
            content,
            earlier,
            name: self.name,
        }
    }

    /// A packet or a scalar of a channel as an item.
    fn data(&self, channel: u32, content: Seq<u8>, earlier: Vec<u32>) -> Item
        requires { length content ≤ most_bytes }
        ensures { result ≡ channel_item self.now.peer (came_in (earlier.items ++ self.now.name ∷ [])) self.now.source channel content }
    {
        Item {
            peer: self.peer,
            source: self.source,
            priority: 0,
            channel: Some(channel),
            content,
            earlier,
            name: self.name,
        }
    }
}

/// A copy of these bytes.
fn copied(alloc: Global, bytes: &[u8]) -> Result<Seq<u8>, NoMemory>
    ensures { IfOk result (λ c. c ≡ bytes.now) }
{
    match Vec::from_slice(alloc, bytes) {
        Ok(bytes) => Ok(Seq::new(bytes)),
        Err(_) => Err(NoMemory),
    }
}

/// The bytes of a scalar.
fn scalar_bytes(alloc: Global, bits: Bits, value: u64) -> Result<Seq<u8>, NoMemory>
    ensures bytes { IfOk result (λ c. c ≡ little_bytes (bytes_of_bits bits) value) }
    ensures short { IfOk result (λ c. length c ≤ 8) }
{
    let bytes = value.to_le_bytes();
    match bits {
        Bits::B8 => copied(alloc, &bytes[..1]),
        Bits::B16 => copied(alloc, &bytes[..2]),
        Bits::B32 => copied(alloc, &bytes[..4]),
        Bits::B64 => copied(alloc, &bytes),
    }
}
