//! Messages and packets that come in several frames.

ghost use Rattle.std.specs.Prelude.{◌≡◌, ◌==◌, ◌+◌, ◌<◌, ◌^◌, ℕ, List, length};
ghost use Rattle.mc_base.specs.Letter.{Piece as PlainPiece};
ghost use Rattle.name_service.specs.Said.{reading_of};
ghost use Rattle.board_model.specs.Parts.{begins, goes_on, same_carrier};
ghost use Rattle.domain_parts.specs.Pieces.{carrier_in, carrier_of, channel_in, kind_in, part_with, priority_in};
ghost use Rattle.domain_parts.specs.Growing.{BringsPiece, IsPiece, IsRead, begun_by, grown_by, is_whole};

use mc_base::{Letter, Priority, Slot};
use name_service::Said;

/// What carries a message or packet that comes in parts: a message of this priority, or a packet of this channel.
#[derive(Clone, Copy, Debug)]
pub enum Carrier {
    Message(Priority),
    Packet(u32),
}

/// Whether what comes in parts is a message or a packet.
#[derive(Clone, Copy, Debug)]
pub enum ItemKind {
    Message,
    Packet,
}

/// A piece as one frame brings it: where it comes from and goes to, what carries it, how many bytes the whole has, how many of them come
/// before those of the piece, and how many bytes the piece has.
#[derive(Clone, Copy, Debug)]
pub struct Piece {
    pub source: u32,
    pub destination: u32,
    pub carrier: Carrier,
    pub total: u32,
    pub offset: u32,
    pub size: u32,
}

/// A message or packet of which not all frames came yet: the slot that names it in the book, where it comes from and goes to, what
/// carries it, how many bytes the whole has, and how many came. A message has no channel, and a packet no priority: each is 0 there.
#[derive(Clone, Copy, Debug)]
pub struct OpenPart {
    pub slot: Slot,
    pub source: u32,
    pub destination: u32,
    pub kind: ItemKind,
    pub priority: Priority,
    pub channel: u32,
    pub total: u32,
    pub size: u32,
}

/// Returns the piece that a frame brings, if it brings one.
pub fn piece_of(said: &Said<'_>) -> Option<Piece>
    requires read { IsRead (reading_of said.now) }
    ensures { BringsPiece result (reading_of said.now) }
{
    let Said::Sends { src, dst, letter } = said else {
        return None;
    };
    let (carrier, total, offset, bytes) = match *letter {
        Letter::MsgPart {
            priority,
            total,
            offset,
            bytes,
        } => (Carrier::Message(priority), total, offset, bytes),
        Letter::PacketPart {
            channel,
            total,
            offset,
            bytes,
        } => (Carrier::Packet(channel), total, offset, bytes),
        Letter::Msg { .. }
        | Letter::Connect { .. }
        | Letter::Accept { .. }
        | Letter::Reject { .. }
        | Letter::RecvOpen { .. }
        | Letter::SendOpen { .. }
        | Letter::Packet { .. }
        | Letter::Scalar { .. }
        | Letter::SendClose { .. }
        | Letter::RecvClose { .. } => return None,
    };
    Some(Piece {
        source: *src,
        destination: *dst,
        carrier,
        total: u32::from(total),
        offset: u32::from(offset),
        size: bytes.len() as u32,
    })
}

impl Carrier {
    /// Whether two carry bytes of one message or packet.
    fn is_same(&self, other: &Carrier) -> bool
        ensures { result ≡ same_carrier (carrier_in self.now) (carrier_in other.now) }
    {
        match (self, other) {
            (Carrier::Message(priority), Carrier::Message(other)) => priority.number()
                == other.number(),
            (Carrier::Packet(channel), Carrier::Packet(other)) => *channel == *other,
            _ => false,
        }
    }

    fn kind(&self) -> ItemKind
        ensures { result ≡ kind_in self.now }
    {
        match self {
            Carrier::Message(_) => ItemKind::Message,
            Carrier::Packet(_) => ItemKind::Packet,
        }
    }

    /// The message's priority, and 0 of a packet.
    fn priority(&self) -> Priority
        ensures { result ≡ priority_in self.now }
    {
        match *self {
            Carrier::Message(priority) => priority,
            Carrier::Packet(_) => Priority::new(0).unwrap(),
        }
    }

    /// The packet's channel, and 0 of a message.
    fn channel(&self) -> u32
        ensures { result ≡ channel_in self.now }
    {
        match *self {
            Carrier::Message(_) => 0,
            Carrier::Packet(channel) => channel,
        }
    }
}

impl Piece {
    /// Whether it begins a part where it continues none.
    pub fn begins(&self) -> bool
        ensures { (q : PlainPiece) → IsPiece self.now q → result ≡ begins q }
    {
        self.offset == 0
    }

    /// Whether it has all bytes of its item.
    pub fn is_whole(&self) -> bool
        ensures { result ≡ (self.now.size == self.now.total) }
    {
        self.size == self.total
    }
}

impl OpenPart {
    /// The part that a piece begins, whose buffer has this slot.
    pub fn begun(slot: Slot, piece: &Piece) -> OpenPart
        ensures { result ≡ begun_by slot piece.now }
    {
        OpenPart {
            slot,
            source: piece.source,
            destination: piece.destination,
            kind: piece.carrier.kind(),
            priority: piece.carrier.priority(),
            channel: piece.carrier.channel(),
            total: piece.total,
            size: piece.size,
        }
    }

    /// What carries it.
    pub fn carrier(&self) -> Carrier
        ensures { carrier_in result ≡ carrier_of self.now }
    {
        match self.kind {
            ItemKind::Message => Carrier::Message(self.priority),
            ItemKind::Packet => Carrier::Packet(self.channel),
        }
    }

    /// Whether a piece goes on with it.
    pub fn goes_on(&self, piece: &Piece) -> bool
        ensures { (content : List ℕ) (q : PlainPiece) → length content ≡ self.now.size → IsPiece piece.now q
            → result ≡ goes_on (part_with self.now content) piece.now.source piece.now.destination q }
    {
        self.source == piece.source
            && self.destination == piece.destination
            && self.carrier().is_same(&piece.carrier)
            && self.total == piece.total
            && self.size == piece.offset
    }

    /// The part with one more piece.
    pub fn grown(&self, piece: &Piece) -> OpenPart
        requires fits { self.now.size + piece.now.size < 2 ^ 32 }
        ensures { result ≡ grown_by self.now piece.now }
    {
        OpenPart {
            size: self.size + piece.size,
            ..*self
        }
    }

    /// Whether all its bytes came.
    pub fn is_whole(&self) -> bool
        ensures { result ≡ is_whole self.now }
    {
        self.size == self.total
    }
}
