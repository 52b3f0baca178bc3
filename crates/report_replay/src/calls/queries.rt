//! What calls ask of the state of a domain.

ghost use Rattle.std.specs.Prelude.{◌≡◌, ◌≤◌, ◌<◌, IfSome, find, length, option_map, position};
ghost use Rattle.std.specs.List.{list_all, list_any};
ghost use Rattle.board_model.specs.State.{address_at, endpoint_at, live_at, packet_at_place, place_at, place_of_packet, place_of_request, queue_at, request_at_place};
ghost use Rattle.board_model.specs.Answer.{address_of, channel_at, first_complete, has_channel, is_complete_at, place_said, stands_at};
ghost use Rattle.report_replay.specs.Views.{end_of};

use crate::channel::ChannelEnd;
use crate::endpoint::Endpoint;
use crate::item::Item;
use crate::request::{LentPacket, Request};
use crate::state::State;
use mc_base::{EndName, Local};

impl State {
    /// The live endpoint of this name.
    pub(crate) fn live_at(&self, local: Local) -> Option<&Endpoint>
        ensures { option_map (λ e. e.now) result ≡ live_at self.now local }
    {
        self.endpoints.iter().find(|e| e.local.node == local.node && e.local.port == local.port)
    }

    /// The endpoint at the place of this name.
    pub(crate) fn endpoint_at(&self, local: Local) -> Option<&Endpoint>
        ensures { option_map (λ e. e.now) result ≡ endpoint_at self.now local }
    {
        self.endpoints.get(self.place_at(local)?)
    }

    /// The address of the live endpoint of this name.
    pub(crate) fn address_at(&self, local: Local) -> Option<u32>
        ensures { result ≡ address_at self.now local }
    {
        Some(self.endpoint_at(local)?.address)
    }

    /// The address of a named endpoint: of a live one of this domain, or of one that is known from another.
    pub(crate) fn address_of(&self, name: EndName) -> Option<u32>
        ensures { result ≡ address_of self.now name }
    {
        if name.domain == self.number {
            self.address_at(Local {
                node: name.node,
                port: name.port,
            })
        } else {
            let place = self.place_of_peer(name.domain)?;
            self.peers[place].known.find(name)
        }
    }

    /// Whether the endpoint of this name has a channel.
    pub(crate) fn has_channel(&self, local: Local) -> bool
        ensures { result ≡ has_channel (endpoint_at self.now local) }
    {
        match self.endpoint_at(local) {
            Some(endpoint) => endpoint.channel.is_some(),
            None => false,
        }
    }

    /// The end of a channel at the endpoint of this name.
    pub(crate) fn channel_at(&self, local: Local) -> Option<ChannelEnd>
        ensures { option_map end_of result ≡ channel_at self.now local }
    {
        self.live_at(local)?.channel
    }

    /// What is queued at the endpoint of this name.
    pub(crate) fn queue_at(&self, local: Local) -> &[Item]
        ensures { result.now ≡ queue_at self.now local }
    {
        match self.endpoint_at(local) {
            Some(endpoint) => &endpoint.queue,
            None => &[],
        }
    }

    /// The request at a place.
    pub(crate) fn request_at(&self, place: Option<usize>) -> Option<&Request>
        ensures { option_map (λ r. r.now) result ≡ request_at_place self.now place }
    {
        self.requests.get(place?)
    }

    /// The lent packet at a place.
    pub(crate) fn packet_at(&self, place: Option<usize>) -> Option<&LentPacket>
        ensures { option_map (λ p. p.now) result ≡ packet_at_place self.now place }
    {
        self.lent.get(place?)
    }

    /// Whether there is a request at a place.
    pub(crate) fn stands_at(&self, place: Option<usize>) -> bool
        ensures { result ≡ stands_at self.now place }
    {
        self.request_at(place).is_some()
    }

    /// Whether the request at a place is complete.
    pub(crate) fn is_complete_at(&self, place: Option<usize>) -> bool
        ensures { result ≡ is_complete_at self.now place }
    {
        match self.request_at(place) {
            Some(request) => request.outcome.is_some(),
            None => false,
        }
    }

    /// The place of the first of several requests that is complete.
    pub(crate) fn first_complete(&self, requests: &[Option<usize>]) -> Option<usize>
        ensures { result ≡ first_complete self.now requests.now }
    {
        match self.complete_in(requests) {
            Some(place) => place,
            None => None,
        }
    }

    fn complete_in(&self, requests: &[Option<usize>]) -> Option<Option<usize>>
        ensures { result ≡ find (is_complete_at self.now) requests.now }
    {
        requests
            .iter()
            .copied()
            .find(|place| self.is_complete_at(*place))
    }
    /// Whether all of several requests exist.
    pub(crate) fn all_stand(&self, requests: &[Option<usize>]) -> bool
        ensures { result ≡ list_all (stands_at self.now) requests.now }
    {
        requests.iter().all(|place| self.stands_at(*place))
    }

    /// Whether one of several requests is complete.
    pub(crate) fn one_is_complete(&self, requests: &[Option<usize>]) -> bool
        ensures { result ≡ list_any (is_complete_at self.now) requests.now }
    {
        requests.iter().any(|place| self.is_complete_at(*place))
    }

    /// The place, counted from 1, of the first request that is complete among those that a wait names, where the answer says it.
    pub(crate) fn place_said(&self, requests: &[Option<usize>], says_place: bool) -> Option<u8>
        requires { length requests.now ≤ 8 }
        ensures { result ≡ place_said self.now requests.now says_place }
    {
        if !says_place {
            return None;
        }
        let place = self.place_complete(requests)?;
        Some(place as u8 + 1)
    }

    fn place_complete(&self, requests: &[Option<usize>]) -> Option<usize>
        ensures place { result ≡ position (is_complete_at self.now) requests.now }
        ensures within { IfSome result (λ place. place < length requests.now) }
    {
        requests
            .iter()
            .position(|place| self.is_complete_at(*place))
    }
    /// The place of the request with this serial.
    pub(crate) fn place_of_request(&self, serial: u64) -> Option<usize>
        ensures { result ≡ place_of_request self.now serial }
    {
        self.requests.iter().position(|r| r.serial == serial)
    }

    /// The place of the lent packet with this serial.
    pub(crate) fn place_of_packet(&self, serial: u64) -> Option<usize>
        ensures { result ≡ place_of_packet self.now serial }
    {
        self.lent.iter().position(|p| p.serial == serial)
    }
}
