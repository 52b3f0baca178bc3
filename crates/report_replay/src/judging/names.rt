//! What is to be done by an announcement.

ghost use Rattle.mc_base.specs.FullName.{endpoint_named};
ghost use Rattle.board_model.specs.State.{Item};
ghost use Rattle.board_model.specs.TakenFrames.{first_row, name_rows};
ghost use Rattle.report_replay.specs.Verdicts.{Follows, known_of};

use crate::state::State;
use crate::verdict::Action;
use mc_base::{Fate, NAMES_KNOWN, Ns};
use name_service::endpoint_named;

impl State {
    /// What is to be done by an announcement by a peer.
    pub(crate) fn judge_name(&self, peer: u8, ns: &Ns) -> Action
        ensures { let known = known_of self.now peer in
            (item : Item) → Follows peer known item (first_row (name_rows peer known (endpoint_named ns.now.name.items) ns.now.addr ns.now.create)) result }
    {
        let Some(name) = endpoint_named(ns.name.as_slice()) else {
            return Action::Nothing(Fate::ForeignName);
        };
        if name.domain != peer {
            return Action::Nothing(Fate::ForeignName);
        }
        let known = self.knows(peer, name);
        if !ns.create {
            return if known {
                Action::Forget { name }
            } else {
                Action::Nothing(Fate::UnknownName)
            };
        }
        if !known && self.names_known(peer) >= NAMES_KNOWN {
            return Action::Nothing(Fate::NamesFull);
        }
        Action::Learn {
            name,
            address: ns.addr,
        }
    }
}
