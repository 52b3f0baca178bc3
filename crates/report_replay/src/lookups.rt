//! What stands in the state of a domain.

ghost use Rattle.std.specs.Prelude.{◌≡◌, is_some, length, option_copied};
ghost use Rattle.mc_base.specs.NameMap.{address_in};
ghost use Rattle.board_model.specs.State as board;
ghost use Rattle.board_model.specs.TakenFrames.{names_of, replies_to};

use crate::endpoint::Endpoint;
use crate::peer::Peer;
use crate::state::State;
use mc_base::{EndName, Local};

impl State {
    /// The peer of this number.
    pub(crate) fn peer_at(&self, number: u8) -> Option<&Peer>
        ensures { option_copied result ≡ board.peer_at self.now number }
    {
        self.peers.iter().find(|p| p.number == number)
    }

    /// The endpoint of this address.
    pub(crate) fn endpoint_of(&self, address: u32) -> Option<&Endpoint>
        ensures { option_copied result ≡ board.endpoint_of self.now address }
    {
        self.endpoints.iter().find(|e| e.address == address)
    }

    /// Whether a receive waits at the endpoint of this name.
    pub(crate) fn one_waits(&self, local: Local) -> bool
        ensures { result ≡ board.one_waits self.now local }
    {
        self.requests.iter().any(|r| r.waits_at(local))
    }

    /// Whether the address of a name of a peer is known.
    pub(crate) fn knows(&self, peer: u8, name: EndName) -> bool
        ensures { result ≡ is_some (address_in name (names_of (board.peer_at self.now peer))) }
    {
        match self.peer_at(peer) {
            Some(peer) => peer.known.find(name).is_some(),
            None => false,
        }
    }

    /// How many names of a peer are known.
    pub(crate) fn names_known(&self, peer: u8) -> usize
        ensures { result ≡ length (names_of (board.peer_at self.now peer)) }
    {
        match self.peer_at(peer) {
            Some(peer) => peer.known.len(),
            None => 0,
        }
    }

    /// How many replies are owed to a peer.
    pub(crate) fn replies_owed(&self, peer: u8) -> usize
        ensures { result ≡ replies_to (board.peer_at self.now peer) }
    {
        match self.peer_at(peer) {
            Some(peer) => peer.replies.len(),
            None => 0,
        }
    }
}
