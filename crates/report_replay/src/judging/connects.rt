//! The verdict on a Connect.

ghost use Rattle.std.specs.Prelude.{◌≡◌};
ghost use Rattle.board_model.specs.State.{Item};
ghost use Rattle.board_model.specs.TakenFrames.{is_busy as busy_at};
ghost use Rattle.report_replay.specs.Ends.{connect_at};
ghost use Rattle.report_replay.specs.Verdicts.{ActsByRows};

use crate::endpoint::Endpoint;
use crate::state::State;
use crate::verdict::Action;
use crate::way::Way;
use mc_base::{Fate, Kind, MAX_OWED_REPLIES, Reason};

impl State {
    /// What is to be done by a Connect on the channel of this number.
    pub(crate) fn judge_connect(&self, way: Way, number: u32, kind: Kind) -> Action
        ensures { (item : Item) → ActsByRows self.now way item (connect_at self.now way number kind) result }
    {
        if self.replies_owed(way.peer) >= MAX_OWED_REPLIES {
            return Action::Nothing(Fate::RepliesFull);
        }
        let reply = |reason| Action::Owe {
            reply: way.reply(number, Some(reason)),
        };
        let Some(endpoint) = self.endpoint_of(way.destination) else {
            return reply(Reason::NoEndpoint);
        };
        if endpoint.channel.is_some() {
            return reply(Reason::Connected);
        }
        if self.is_busy(endpoint) {
            return reply(Reason::Busy);
        }
        Action::Accept {
            at: way.destination,
            end: way.accepted(number, kind),
            reply: way.reply(number, None),
        }
    }

    /// Whether an item or a receive waits at an endpoint.
    fn is_busy(&self, endpoint: &Endpoint) -> bool
        ensures { result ≡ busy_at self.now endpoint.now }
    {
        !endpoint.queue.is_empty() || self.one_waits(endpoint.local)
    }
}
