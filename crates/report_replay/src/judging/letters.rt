//! The verdict on a message, and on a letter to an end of a channel.

ghost use Rattle.std.specs.Prelude.{ℕ, option_map};
ghost use Rattle.mc_base.specs.Letter.{plain_letter};
ghost use Rattle.mc_base.specs.NameMap.{Names};
ghost use Rattle.board_model.specs.State.{Item};
ghost use Rattle.report_replay.specs.Ends.{acted, end_at, kept, message_at};
ghost use Rattle.report_replay.specs.Verdicts.{ByRows, Follows, Judges};
ghost use Rattle.report_replay.specs.Views.{end_of};

use crate::channel::ChannelEnd;
use crate::ends::Heard;
use crate::state::State;
use crate::verdict::{Action, Verdict};
use crate::way::Way;
use mc_base::{Fate, Letter, Local};

impl State {
    /// The verdict on a message.
    pub(crate) fn judge_message(&self, way: Way) -> Verdict
        ensures { (item : Item) → ByRows self.now way item (message_at self.now way item) result }
    {
        let Some(endpoint) = self.endpoint_of(way.destination) else {
            return Verdict::Act(Action::Nothing(Fate::NoEndpoint));
        };
        match endpoint.channel {
            Some(_) => Verdict::Act(Action::Nothing(Fate::OnChannel)),
            None => self.keep(way.destination, endpoint.local),
        }
    }

    /// The verdict on a letter that is to an end of a channel.
    pub(crate) fn judge_at_end(&self, way: Way, letter: &Letter<'_>) -> Verdict
        ensures { (item : Item) → ByRows self.now way item (end_at self.now way item (plain_letter letter.now)) result }
    {
        let Some(endpoint) = self.endpoint_of(way.destination) else {
            return Verdict::Act(Action::Nothing(Fate::NoEndpoint));
        };
        let Some(end) = endpoint.channel else {
            return Verdict::Act(Action::Nothing(Fate::State));
        };
        let at = way.destination;
        match end.hear(way.peer, letter) {
            Heard::Acts(left) => Verdict::Act(act_at(at, left, letter)),
            Heard::Keeps => self.keep(at, endpoint.local),
            Heard::Loses => Verdict::Act(Action::Lose { at }),
            Heard::OutOfPlace => Verdict::Act(Action::Nothing(Fate::State)),
        }
    }

    /// The verdict on an item that is kept at the endpoint of this address and name: the oldest receive that waits there has it, or
    /// else the queue.
    fn keep(&self, at: u32, local: Local) -> Verdict
        ensures { (peer : ℕ) → (known : Names) → (item : Item) → Judges peer known item (kept self.now at local item) result }
    {
        Verdict::Keep {
            at,
            hands: self.one_waits(local),
        }
    }
}

/// What is to be done by a letter that is acted on at the endpoint of this address, and leaves this end there.
fn act_at(at: u32, left: Option<ChannelEnd>, letter: &Letter<'_>) -> Action
    ensures { (peer : ℕ) → (known : Names) → (item : Item) → Follows peer known item (acted at (option_map end_of left) (plain_letter letter.now)) result }
{
    match *letter {
        Letter::Accept { channel } => Action::Settle {
            at,
            left,
            number: channel,
            rejected: None,
        },
        Letter::Reject { channel, reason } => Action::Settle {
            at,
            left,
            number: channel,
            rejected: Some(reason),
        },
        Letter::SendClose { .. } => Action::EndReceives { at, left },
        Letter::Msg { .. }
        | Letter::Connect { .. }
        | Letter::RecvOpen { .. }
        | Letter::SendOpen { .. }
        | Letter::Packet { .. }
        | Letter::Scalar { .. }
        | Letter::RecvClose { .. }
        | Letter::MsgPart { .. }
        | Letter::PacketPart { .. } => Action::Set { at, left },
    }
}
