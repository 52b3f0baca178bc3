//! The state of a domain: lists in the order in which their items came.

ghost use Rattle.std.specs.Prelude.{◌≡◌, option_map};
ghost use Rattle.board_model.specs.State.{endpoint_of, place_at, place_of_address, place_of_waiting, place_of_peer};

use crate::endpoint::Endpoint;
use crate::held::HeldFrame;
use crate::peer::Peer;
use crate::request::{LentPacket, Request};
use mc_base::Local;
use std::marker::Model;

/// The state of a domain.
#[derive(Debug, Drop)]
pub struct State {
    pub(crate) number: u8,
    pub(crate) nodes: u8,
    pub(crate) endpoints: Vec<Endpoint>,
    pub(crate) ended: Vec<u32>,
    pub(crate) peers: Vec<Peer>,
    pub(crate) requests: Vec<Request>,
    pub(crate) lent: Vec<LentPacket>,
    pub(crate) held: Vec<HeldFrame>,
    pub(crate) endpoints_given: u32,
    pub(crate) channels_given: u32,
    pub(crate) requests_given: u64,
    pub(crate) packets_lent: u64,
}

impl Model for State {
    ghost use Rattle.board_model.specs.State.{DomainState};

    ghost Value = { DomainState };

    ghost view = { λ s. record { number = s.number; nodes = s.nodes; endpoints = s.endpoints.items; ended = s.ended.items; peers = s.peers.items; requests = s.requests.items; lent = s.lent.items; held = s.held.items; endpoints_given = s.endpoints_given; channels_given = s.channels_given; requests_given = s.requests_given; packets_lent = s.packets_lent } };
}

impl State {
    /// The place of the endpoint of this name.
    pub fn place_at(&self, local: Local) -> Option<usize>
        ensures { result ≡ place_at self.now local }
    {
        self.endpoints.iter().position(|e| e.local.node == local.node && e.local.port == local.port)
    }

    /// The place of the endpoint of this address.
    pub fn place_of_address(&self, address: u32) -> Option<usize>
        ensures { result ≡ place_of_address self.now address }
    {
        self.endpoints.iter().position(|e| e.address == address)
    }

    /// The name of the endpoint of this address.
    pub(crate) fn local_of(&self, address: u32) -> Option<Local>
        ensures { result ≡ option_map (λ e. e.local) (endpoint_of self.now address) }
    {
        let endpoint = self.endpoints.iter().find(|e| e.address == address)?;
        Some(endpoint.local)
    }

    /// The place of the oldest receive that waits at the endpoint of this name.
    pub(crate) fn place_of_waiting(&self, local: Local) -> Option<usize>
        ensures { result ≡ place_of_waiting self.now local }
    {
        self.requests.iter().position(|r| r.waits_at(local))
    }

    /// How many channels the domain has numbered.
    pub fn channels_given(&self) -> u32
        ensures { result ≡ self.now.channels_given }
    {
        self.channels_given
    }

    /// The place of the peer of this number.
    pub fn place_of_peer(&self, number: u8) -> Option<usize>
        ensures { result ≡ place_of_peer self.now number }
    {
        self.peers.iter().position(|p| p.number == number)
    }
}
