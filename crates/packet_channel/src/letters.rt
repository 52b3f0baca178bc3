//! What a letter does to an end.

ghost use Rattle.std.specs.Prelude.{◌≡◌};
ghost use Rattle.mc_base.specs.Letter.{plain_letter};
ghost use Rattle.board_model.specs.ChannelEnds.{end_row_of};
ghost use Rattle.packet_channel.specs.End.{end_of, kept_end};
ghost use Rattle.packet_channel.specs.Parts.{is_for, fate_of_data};

use crate::channel::{Channel, Stage};
use mc_base::{Fate, Kind, Letter, Side};

impl Channel {
    /// Does what a letter from this peer asks for, and returns the word of its frame. `has_ended` tells afterwards whether the
    /// channel ended. A packet or a scalar that is to be kept is `Queued`; the domain hands it to a receive that waits. A
    /// message or a Connect is out of place here: `State`. A part of a packet counts as the packet that its bytes are.
    pub fn letter(&mut self, from: u8, letter: &Letter<'_>) -> Fate
        ensures word { result ≡ (end_row_of from (kept_end self.old) (plain_letter letter.now)).word }
        ensures left { kept_end self.new ≡ (end_row_of from (kept_end self.old) (plain_letter letter.now)).leaves }
        ensures number { self.new.number ≡ self.old.number }
    {
        if !self.is_for(from, letter) {
            return Fate::State;
        }
        match *letter {
            Letter::Accept { .. } if self.stage == Stage::Connecting => {
                self.stage = Stage::Connected;
            }
            Letter::Reject { .. } if self.stage == Stage::Connecting => {
                self.stage = Stage::Closed;
                self.far_closed = true;
            }
            Letter::RecvOpen { .. } | Letter::SendOpen { .. }
                if !self.far_open && !self.far_closed => {
                self.far_open = true;
            }
            Letter::RecvClose { .. } | Letter::SendClose { .. } if !self.far_closed => {
                self.far_closed = true;
            }
            Letter::Packet { .. } | Letter::PacketPart { .. } => return self.data(Kind::Packet),
            Letter::Scalar { .. } => return self.data(Kind::Scalar),
            _ => return Fate::State,
        }
        Fate::Acted
    }

    /// Whether a letter from this peer is one to this end, by its channel and by who writes such letters.
    fn is_for(&self, from: u8, letter: &Letter<'_>) -> bool
        ensures { result ≡ is_for from (end_of self.now) (plain_letter letter.now) }
    {
        match *letter {
            Letter::Accept { channel }
            | Letter::Reject { channel, .. }
            | Letter::RecvOpen { channel }
            | Letter::RecvClose { channel } => {
                self.side == Side::Sender && self.number == channel && self.peer == from
            }
            Letter::SendOpen { channel }
            | Letter::Packet { channel, .. }
            | Letter::PacketPart { channel, .. }
            | Letter::Scalar { channel, .. }
            | Letter::SendClose { channel } => {
                self.side == Side::Receiver && self.number == channel && self.owner == from
            }
            Letter::Msg { .. } | Letter::MsgPart { .. } | Letter::Connect { .. } => false,
        }
    }

    /// The word of an item of this kind that came to this end.
    fn data(&self, kind: Kind) -> Fate
        ensures { result ≡ fate_of_data kind (end_of self.now) }
    {
        if self.kind != kind || self.far_closed {
            return Fate::State;
        }
        if self.stage == Stage::Closed {
            return Fate::Closed;
        }
        Fate::Queued
    }
}
