//! Messages and packets that come in several frames: how a frame goes on with the open part of its peer, and what it says then.

ghost use Rattle.std.specs.Prelude.{◌≡◌, ◌==◌, ◌++◌, IfOk, OnOk, false, length};
ghost use Rattle.mc_base.specs.Letter.{carried, plain_letter, saying_of, whole};
ghost use Rattle.mc_base.specs.Reading.{says_so};
ghost use Rattle.name_service.specs.Said.{reading_of};
ghost use Rattle.board_model.specs.Parts.{begins, begun, coming as coming_with, goes_on as goes_on_so, same_carrier};
ghost use Rattle.report_replay.specs.Coming.{Brings, IsPartOf, SaysSo, piece_of};
ghost use Rattle.report_replay.specs.declared.part.Says.TheVariants.{Alone};
ghost use Rattle.report_replay.specs.Views.{carrier_of};

use mc_base::{Letter, NoMemory, Priority};
use name_service::Said;
use std::alloc::Global;
use std::marker::Model;

/// What carries a message or a packet in parts: a message of this priority, or a packet of this channel.
#[derive(Clone, Copy, Debug, PartialEq, Eq)]
pub enum Carrier {
    Message(Priority),
    Packet(u32),
}

/// A message or packet of which not all frames came yet: where it comes from and goes to, what carries it, how many bytes the whole has, and
/// those that came.
#[derive(Debug, Drop)]
pub struct Part {
    pub(crate) source: u32,
    pub(crate) destination: u32,
    pub(crate) carrier: Carrier,
    pub(crate) total: u16,
    pub(crate) content: Vec<u8>,
}

impl Model for Part {
    ghost use Rattle.board_model.specs.State.{Part as Plain};
    ghost use Rattle.report_replay.specs.Views.{carrier_of};

    ghost Value = { Plain };

    ghost view = { λ p. record { source = p.source; destination = p.destination; carrier = carrier_of p.carrier; total = p.total; content = p.content.items } };
}

/// A part of a letter as a frame brings it: of the whole, which has `total` bytes, `offset` come before these.
#[derive(Clone, Copy)]
pub(crate) struct Piece<'a> {
    source: u32,
    destination: u32,
    carrier: Carrier,
    total: u16,
    offset: u16,
    bytes: &'a [u8],
}

/// What a frame says together with the open part of its peer.
#[derive(Drop)]
pub(crate) enum Says<'a> {
    /// What it says by itself. No part is open after it, and a piece is stray.
    Alone(Said<'a>),
    /// A piece of the part that is open after it.
    Held,
    /// The message or packet that is whole with it. No part is open after it.
    Whole(Part),
}

/// What a frame says together with the open part of its peer, and whether it went on with that part.
#[derive(Drop)]
pub(crate) struct Coming<'a> {
    pub(crate) says: Says<'a>,
    pub(crate) joins: bool,
}

/// Reads a frame with the open part of its peer, which then grows, is whole, or ends. A piece that goes on with no part begins one, if it
/// has the first bytes.
///
/// # Errors
///
/// `NoMemory` where the bytes of a part cannot be stored.
pub(crate) fn read_with<'a>(
    alloc: Global,
    before: &mut Option<Part>,
    said: Said<'a>,
) -> Result<Coming<'a>, NoMemory>
    ensures part { OnOk result (before.new ≡ (coming_with before.old (reading_of said.entry)).part) }
    ensures joins { IfOk result (λ c. c.joins ≡ (coming_with before.old (reading_of said.entry)).joins) }
    ensures says { IfOk result (λ c. SaysSo (reading_of said.entry) c.says (coming_with before.old (reading_of said.entry))) }
{
    let part = before.take();
    let Some(piece) = piece_said(&said) else {
        return Ok(alone(said));
    };
    let Some((mut part, joins)) = piece.part(alloc, part) else {
        return Ok(alone(said));
    };
    part.grow(piece.bytes)?;
    if part.is_whole() {
        return Ok(Coming {
            says: Says::Whole(part),
            joins,
        });
    }
    *before = Some(part);
    Ok(Coming {
        says: Says::Held,
        joins,
    })
}

/// A frame that goes on with no part and begins none.
fn alone(said: Said<'_>) -> Coming<'_>
    ensures says { result.says ≡ Alone said.entry }
    ensures joins { result.joins ≡ false }
{
    Coming {
        says: Says::Alone(said),
        joins: false,
    }
}

/// The piece that a frame brings, if it brings one.
fn piece_said<'a>(said: &Said<'a>) -> Option<Piece<'a>>
    ensures { Brings result (reading_of said.now) }
{
    match said {
        Said::Sends { src, dst, letter } => piece_of_letter(*src, *dst, letter),
        Said::Faulty(_) | Said::Announces(_) => None,
    }
}

/// The piece that a letter from one address to another is, if it is one.
fn piece_of_letter<'a>(source: u32, destination: u32, letter: &Letter<'a>) -> Option<Piece<'a>>
    ensures { Brings result (says_so source destination (saying_of letter.now)) }
{
    match *letter {
        Letter::MsgPart {
            priority,
            total,
            offset,
            bytes,
        } => Some(Piece {
            source,
            destination,
            carrier: Carrier::Message(priority),
            total,
            offset,
            bytes,
        }),
        Letter::PacketPart {
            channel,
            total,
            offset,
            bytes,
        } => Some(Piece {
            source,
            destination,
            carrier: Carrier::Packet(channel),
            total,
            offset,
            bytes,
        }),
        Letter::Msg { .. }
        | Letter::Connect { .. }
        | Letter::Accept { .. }
        | Letter::Reject { .. }
        | Letter::RecvOpen { .. }
        | Letter::SendOpen { .. }
        | Letter::Packet { .. }
        | Letter::Scalar { .. }
        | Letter::SendClose { .. }
        | Letter::RecvClose { .. } => None,
    }
}

impl Piece<'_> {
    #[tactic(auto, unfolding(board_model::specs::Parts::begins))]
    /// Whether a part begins with it.
    fn begins(&self) -> bool
        ensures { result ≡ begins (piece_of self.now) }
    {
        self.offset == 0
    }

    /// The part that it is of, and whether that was open: the open one, if it goes on with it, or one that it begins.
    fn part(&self, alloc: Global, before: Option<Part>) -> Option<(Part, bool)>
        ensures { IsPartOf before self.now result }
    {
        if let Some(part) = before {
            if part.goes_on(self) {
                return Some((part, true));
            }
        }
        if self.begins() {
            return Some((self.begun(alloc), false));
        }
        None
    }

    /// The part that begins with it, of which no bytes came yet.
    fn begun(&self, alloc: Global) -> Part
        ensures { result ≡ begun self.now.source self.now.destination (piece_of self.now) }
    {
        Part {
            source: self.source,
            destination: self.destination,
            carrier: self.carrier,
            total: self.total,
            content: Vec::new(alloc),
        }
    }
}

impl Carrier {
    /// Whether two carry bytes of one message or packet.
    fn is_same(&self, other: &Carrier) -> bool
        ensures { result ≡ same_carrier (carrier_of self.now) (carrier_of other.now) }
    {
        match (self, other) {
            (Carrier::Message(priority), Carrier::Message(other)) => priority.number()
                == other.number(),
            (Carrier::Packet(channel), Carrier::Packet(other)) => *channel == *other,
            _ => false,
        }
    }
}

impl Part {
    /// Whether a piece goes on with it.
    fn goes_on(&self, piece: &Piece<'_>) -> bool
        ensures { result ≡ goes_on_so self.now piece.now.source piece.now.destination (piece_of piece.now) }
    {
        self.source == piece.source
            && self.destination == piece.destination
            && self.carrier.is_same(&piece.carrier)
            && self.total == piece.total
            && self.content.len() == usize::from(piece.offset)
    }

    /// Appends the bytes of a piece.
    fn grow(&mut self, bytes: &[u8]) -> Result<(), NoMemory>
        ensures { OnOk result (self.new ≡ record self.old { content = self.old.content ++ bytes.now }) }
    {
        if self.content.extend_from_slice(bytes).is_err() {
            return Err(NoMemory);
        }
        Ok(())
    }

    /// Whether all its bytes came.
    fn is_whole(&self) -> bool
        ensures { result ≡ (length self.now.content == self.now.total) }
    {
        self.content.len() == usize::from(self.total)
    }

    /// The letter that it is once it is whole.
    pub(crate) fn letter(&self) -> Letter<'_>
        ensures says { saying_of result ≡ whole (carried self.now.carrier self.now.content) }
        ensures plain { plain_letter result ≡ carried self.now.carrier self.now.content }
    {
        let bytes = self.content.as_slice();
        match self.carrier {
            Carrier::Message(priority) => Letter::Msg { priority, bytes },
            Carrier::Packet(channel) => Letter::Packet { channel, bytes },
        }
    }
}
