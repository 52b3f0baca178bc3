ghost use Rattle.std.specs.Prelude.{◌≡◌, ◌&&◌, ◌∷◌, [], is_none, length};
ghost use Rattle.board_model.specs.State.{frames_from, has_address, item_in, waits_at as waiting_at};
ghost use Rattle.board_model.specs.Change.{all_done, asks_for, done_with, connects_on as connecting_on};
ghost use Rattle.report_replay.specs.Replayed.{ended_at};
ghost use Rattle.report_replay.specs.Views.{outcome_of, settling};

use crate::item::Item;
use mc_base::{EndName, Local, Reason, Refusal};
use std::marker::Model;

/// What a request asks for.
#[derive(Clone, Copy, Debug)]
pub enum Asked {
    /// The address of a name.
    Name(EndName),
    /// The answer to the Connect of a channel of this domain.
    Channel(u32),
    /// A message at an endpoint, of which at most so many bytes are given.
    Message { at: Local, max: u32 },
    /// A packet at an endpoint.
    Packet { at: Local },
}

/// How a request is complete.
#[derive(Debug, Drop)]
pub enum Outcome {
    Address(u32),
    Accepted,
    Rejected(Reason),
    Item(Item),
    Ended(Refusal),
}

/// A request that stands, pending or complete.
#[derive(Debug, Drop)]
pub struct Request {
    pub(crate) serial: u64,
    pub(crate) asked: Asked,
    pub(crate) outcome: Option<Outcome>,
}

impl Model for Request {
    ghost use Rattle.std.specs.Prelude.{option_map};
    ghost use Rattle.board_model.specs.State.{Request as Plain};
    ghost use Rattle.report_replay.specs.Views.{asked_of, outcome_of};

    ghost Value = { Plain };

    ghost view = { λ r. record { serial = r.serial; asked = asked_of r.asked; outcome = option_map outcome_of r.outcome } };
}

/// A packet that is lent.
#[derive(Debug, Drop)]
pub struct LentPacket {
    pub(crate) serial: u64,
    pub(crate) item: Item,
}

impl Model for LentPacket {
    ghost use Rattle.board_model.specs.State.{LentPacket as Plain};

    ghost Value = { Plain };

    ghost view = { λ p. record { serial = p.serial; item = p.item } };
}

impl LentPacket {
    /// How many frames from a peer brought it.
    pub(crate) fn frames_from(&self, peer: u8) -> u64
        ensures { result ≡ length (frames_from peer (self.now.item ∷ [])) }
    {
        self.item.frames_from(peer)
    }
}

impl Request {
    /// How many frames from a peer brought the item with which it is complete, if it is.
    pub(crate) fn frames_from(&self, peer: u8) -> u64
        ensures { result ≡ length (frames_from peer (item_in self.now.outcome)) }
    {
        match &self.outcome {
            Some(Outcome::Item(item)) => item.frames_from(peer),
            _ => 0,
        }
    }

    /// Whether it is a pending receive at the endpoint of this name.
    pub(crate) fn waits_at(&self, local: Local) -> bool
        ensures { result ≡ waiting_at local self.now }
    {
        if self.outcome.is_some() {
            return false;
        }
        match self.asked {
            Asked::Message { at, .. } | Asked::Packet { at } => {
                at.node == local.node && at.port == local.port
            }
            _ => false,
        }
    }

    /// Whether it is a pending lookup of this name.
    pub(crate) fn looks_for(&self, name: EndName) -> bool
        ensures { result ≡ (is_none self.now.outcome && asks_for name self.now.asked) }
    {
        if self.outcome.is_some() {
            return false;
        }
        match self.asked {
            Asked::Name(asked) => {
                asked.domain == name.domain && asked.node == name.node && asked.port == name.port
            }
            _ => false,
        }
    }

    /// Whether it is a pending request to connect on this channel of the domain.
    pub(crate) fn connects_on(&self, number: u32) -> bool
        ensures { result ≡ (is_none self.now.outcome && connecting_on number self.now.asked) }
    {
        if self.outcome.is_some() {
            return false;
        }
        match self.asked {
            Asked::Channel(asked) => asked == number,
            _ => false,
        }
    }

    /// Completes it.
    pub(crate) fn complete(&mut self, outcome: Outcome)
        ensures { self.new ≡ done_with (outcome_of outcome) self.old }
    {
        self.outcome = Some(outcome);
    }

    /// Completes it with an address, if it is a pending lookup of this name.
    pub(crate) fn find_name(&mut self, name: EndName, address: u32)
        ensures { self.new ≡ all_done (asks_for name) (has_address address) self.old }
    {
        if self.looks_for(name) {
            self.outcome = Some(Outcome::Address(address));
        }
    }

    /// Accepts or rejects it, if it is a pending request to connect on this channel of the domain.
    pub(crate) fn settle(&mut self, number: u32, rejected: Option<Reason>)
        ensures { self.new ≡ all_done (connecting_on number) (settling rejected) self.old }
    {
        if self.connects_on(number) {
            self.outcome = Some(match rejected {
                Some(reason) => Outcome::Rejected(reason),
                None => Outcome::Accepted,
            });
        }
    }

    /// Ends it with a word, if it is a pending receive at the endpoint of this name.
    pub(crate) fn end_waiting(&mut self, local: Local, word: Refusal)
        ensures { self.new ≡ ended_at local word self.old }
    {
        if self.waits_at(local) {
            self.outcome = Some(Outcome::Ended(word));
        }
    }
}
