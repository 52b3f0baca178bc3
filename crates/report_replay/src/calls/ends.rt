//! Why an end of a channel refuses a call.

ghost use Rattle.std.specs.Prelude.{◌≡◌};
ghost use Rattle.board_model.specs.ChannelEnds.{end_refuses, is_closed_for, is_of_other_kind, is_shut_for, same_kind as kinds_agree, same_side as sides_agree, side_of};
ghost use Rattle.report_replay.specs.PlainCalls.{plain_end_call};
ghost use Rattle.report_replay.specs.Views.{end_of};

use crate::channel::{ChannelEnd, Stage};
use mc_base::{Kind, Refusal, Side};

/// What a call asks of an end of a channel: that it opens, that it sends or receives, or that it closes.
#[derive(Clone, Copy)]
pub(crate) enum EndCall {
    Opens { side: Side, kind: Kind },
    Sends { kind: Kind },
    Receives { kind: Kind, queued: usize },
    Closes { side: Side },
}

impl EndCall {
    /// The side that the call is made at.
    fn side(self) -> Side
        ensures { result ≡ side_of (plain_end_call self) }
    {
        match self {
            EndCall::Opens { side, .. } | EndCall::Closes { side } => side,
            EndCall::Sends { .. } => Side::Sender,
            EndCall::Receives { .. } => Side::Receiver,
        }
    }
}

impl ChannelEnd {
    /// Whether the condition of a word holds for a call at this end.
    pub(crate) fn refuses(&self, call: EndCall, word: Refusal) -> bool
        ensures { result ≡ end_refuses (plain_end_call call) (end_of self.now) word }
    {
        match word {
            Refusal::NotConnected => matches!(self.stage, Stage::Connecting),
            Refusal::ChanDirection => !same_side(self.side, call.side()),
            Refusal::ChanType => self.is_of_other_kind(call),
            Refusal::ChanClosed => self.is_closed_for(call),
            Refusal::AlreadyOpen => matches!(self.stage, Stage::Open),
            Refusal::NotOpen => self.is_shut_for(call),
            Refusal::NodeInvalid
            | Refusal::ExistsAlready
            | Refusal::EndpLimit
            | Refusal::AddressSpent
            | Refusal::EndpInvalid
            | Refusal::PeerInvalid
            | Refusal::OnChannel
            | Refusal::ChanConnected
            | Refusal::EndpBusy
            | Refusal::ChanLimit
            | Refusal::RequestLimit
            | Refusal::MsgSize
            | Refusal::PktSize
            | Refusal::NoBuffer
            | Refusal::Empty
            | Refusal::SclSize
            | Refusal::BufInvalid
            | Refusal::RequestInvalid
            | Refusal::Pending
            | Refusal::TooLate
            | Refusal::Timeout
            | Refusal::LinkInvalid
            | Refusal::RawSound => false,
        }
    }

    /// Whether it carries another kind than the call's. A close is of no kind.
    fn is_of_other_kind(&self, call: EndCall) -> bool
        ensures { result ≡ is_of_other_kind (plain_end_call call) (end_of self.now) }
    {
        match call {
            EndCall::Opens { kind, .. }
            | EndCall::Sends { kind }
            | EndCall::Receives { kind, .. } => { !same_kind(self.kind, kind) }
            EndCall::Closes { .. } => false,
        }
    }

    /// Whether it is closed for the call.
    fn is_closed_for(&self, call: EndCall) -> bool
        ensures { result ≡ is_closed_for (plain_end_call call) (end_of self.now) }
    {
        let closed = matches!(self.stage, Stage::Closed);
        match call {
            EndCall::Opens {
                side: Side::Sender,
                ..
            }
            | EndCall::Sends { .. } => closed || self.far_closed,
            EndCall::Opens {
                side: Side::Receiver,
                ..
            }
            | EndCall::Closes { .. } => closed,
            EndCall::Receives { queued, .. } => {
                closed || (matches!(self.stage, Stage::Open) && queued == 0 && self.far_closed)
            }
        }
    }

    /// Whether it is not open for the call.
    fn is_shut_for(&self, call: EndCall) -> bool
        ensures { result ≡ is_shut_for (plain_end_call call) (end_of self.now) }
    {
        let opened = matches!(self.stage, Stage::Open);
        match call {
            EndCall::Sends { .. } => !opened || !self.far_open,
            EndCall::Receives { .. } => !opened,
            EndCall::Opens { .. } | EndCall::Closes { .. } => false,
        }
    }
}

fn same_side(one: Side, other: Side) -> bool
    ensures { result ≡ sides_agree one other }
{
    matches!(
        (one, other),
        (Side::Sender, Side::Sender) | (Side::Receiver, Side::Receiver)
    )
}

fn same_kind(one: Kind, other: Kind) -> bool
    ensures { result ≡ kinds_agree one other }
{
    matches!(
        (one, other),
        (Kind::Packet, Kind::Packet) | (Kind::Scalar, Kind::Scalar)
    )
}
