//! What a letter does at an end of a channel.

ghost use Rattle.std.specs.Prelude.{◌≡◌, ◌∷◌, [], Some, option_map};
ghost use Rattle.mc_base.specs.Letter.{plain_letter};
ghost use Rattle.board_model.specs.ChannelEnds.{accepted_end, end_row_of, far_closed_end, hears_from, sends_to};
ghost use Rattle.report_replay.specs.Ends.{is_for as is_for_end, left_by, word_at, word_of_data};
ghost use Rattle.report_replay.specs.Views.{end_of};

use crate::channel::{ChannelEnd, Stage};
use mc_base::{Kind, Letter, Side};

/// What a letter does at an end.
#[derive(Clone, Copy)]
pub(crate) enum Heard {
    /// It is acted on, and leaves this end, or none where the channel ends.
    Acts(Option<ChannelEnd>),
    /// Its item is to be kept.
    Keeps,
    /// The end is closed, and its item is lost.
    Loses,
    /// It is out of place.
    OutOfPlace,
}

impl ChannelEnd {
    /// What a letter from a peer does at this end.
    pub(crate) fn hear(&self, peer: u8, letter: &Letter<'_>) -> Heard
        ensures word { word_at result ≡ (end_row_of peer (Some (end_of self.now)) (plain_letter letter.now)).word }
        ensures left { left_by (end_of self.now) result ≡ (end_row_of peer (Some (end_of self.now)) (plain_letter letter.now)).leaves }
    {
        if !self.is_for(peer, letter) {
            return Heard::OutOfPlace;
        }
        match *letter {
            Letter::Accept { .. } if self.stage == Stage::Connecting => {
                Heard::Acts(Some(ChannelEnd {
                    stage: Stage::Connected,
                    ..*self
                }))
            }
            Letter::Reject { .. } if self.stage == Stage::Connecting => Heard::Acts(None),
            Letter::RecvOpen { .. } | Letter::SendOpen { .. }
                if !self.far_open && !self.far_closed => {
                Heard::Acts(Some(ChannelEnd {
                    far_open: true,
                    ..*self
                }))
            }
            Letter::RecvClose { .. } | Letter::SendClose { .. } if !self.far_closed => {
                Heard::Acts(self.close_far())
            }
            Letter::Packet { .. } | Letter::PacketPart { .. } => self.data(Kind::Packet),
            Letter::Scalar { .. } => self.data(Kind::Scalar),
            _ => Heard::OutOfPlace,
        }
    }

    /// Whether a letter from a peer is one to this end, by its channel and by who writes such letters.
    fn is_for(&self, peer: u8, letter: &Letter<'_>) -> bool
        ensures { result ≡ is_for_end peer (end_of self.now) (plain_letter letter.now) }
    {
        match *letter {
            Letter::Accept { channel }
            | Letter::Reject { channel, .. }
            | Letter::RecvOpen { channel }
            | Letter::RecvClose { channel } => {
                self.side == Side::Sender && self.number == channel && self.peer == peer
            }
            Letter::SendOpen { channel }
            | Letter::Packet { channel, .. }
            | Letter::PacketPart { channel, .. }
            | Letter::Scalar { channel, .. }
            | Letter::SendClose { channel } => {
                self.side == Side::Receiver && self.number == channel && self.owner == peer
            }
            Letter::Msg { .. } | Letter::MsgPart { .. } | Letter::Connect { .. } => false,
        }
    }

    /// What is left where the far end closes: none where this end is closed too.
    fn close_far(&self) -> Option<ChannelEnd>
        ensures { option_map end_of result ≡ far_closed_end (end_of self.now) }
    {
        if self.stage == Stage::Closed {
            return None;
        }
        Some(ChannelEnd {
            far_closed: true,
            ..*self
        })
    }

    /// What an item of this kind does that comes to this end.
    fn data(&self, kind: Kind) -> Heard
        ensures word { word_at result ≡ word_of_data kind (end_of self.now) }
        ensures left { left_by (end_of self.now) result ≡ Some (end_of self.now) }
    {
        if self.kind != kind || self.far_closed {
            return Heard::OutOfPlace;
        }
        if self.stage == Stage::Closed {
            return Heard::Loses;
        }
        Heard::Keeps
    }
}
