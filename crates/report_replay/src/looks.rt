//! Looks at the lanes to and from a peer, and the owed frames that are put.

ghost use Rattle.std.specs.Prelude.{◌≡◌, ◌-◌, ◌+◌, ◌<◌, ◌^◌, List, ℕ, Some, find, min, option_map};
ghost use Rattle.board_model.specs.State.{Peer, is_numbered, peer_of, free_to, size_to};
ghost use Rattle.board_model.specs.Deeds.{after_deed, looks_back, looks_ahead, puts_owed};
ghost use Rattle.report_replay.specs.Replayed.{shown_by};

use crate::peer::Peer;
use crate::state::State;

impl State {
    /// The peer of this number.
    pub(crate) fn peer_numbered(&self, number: u8) -> Option<&Peer>
        ensures { option_map (λ p. p.now) result ≡ peer_of self.now number }
    {
        find_numbered(&self.peers, number)
    }

    /// The free buffers of the lane to a peer, and 0 where there is no such peer.
    pub fn free_to(&self, peer: u8) -> u32
        ensures { result ≡ free_to self.now peer }
    {
        match self.peer_numbered(peer) {
            Some(p) => p.free,
            None => 0,
        }
    }

    /// All buffers of the lane to a peer, and 0 where there is no such peer.
    pub(crate) fn size_to(&self, peer: u8) -> u32
        ensures { result ≡ size_to self.now peer }
    {
        match self.peer_numbered(peer) {
            Some(p) => p.size,
            None => 0,
        }
    }

    /// Makes a look at the buffers that came back from a peer: as many as the journal says, as far as the lane allows. Returns
    /// how many came back.
    pub fn look_back(&mut self, peer: u8, told: u64) -> u32
        ensures count { (p : Peer) → peer_of self.old peer ≡ Some p → result ≡ min told (p.size - p.free) }
        ensures state { self.new ≡ after_deed self.old (looks_back peer result) }
    {
        let count = self.used_of(peer, told);
        self.take_back(peer, count);
        count
    }

    /// As many as these of the buffers of the lane to a peer that are in use.
    fn used_of(&self, peer: u8, most: u64) -> u32
        ensures count { (p : Peer) → peer_of self.now peer ≡ Some p → result ≡ min most (p.size - p.free) }
        ensures fits { free_to self.now peer + result < 2 ^ 32 }
    {
        match self.peer_numbered(peer) {
            Some(p) => most.min(u64::from(p.size.saturating_sub(p.free))) as u32,
            None => 0,
        }
    }

    /// Makes a look at the frames of a peer: as many are shown as the journal says, as far as the lane allows, and none of those
    /// that were shown before is hidden. Returns how many are shown.
    pub fn look_ahead(&mut self, peer: u8, told: u64) -> u32
        ensures count { (p : Peer) → peer_of self.old peer ≡ Some p → result ≡ shown_by self.old peer told p }
        ensures state { self.new ≡ after_deed self.old (looks_ahead peer result) }
    {
        let count = self.shown_of(peer, told);
        self.show(peer, count);
        count
    }

    /// As many as these of the frames of a peer, of which the lane has no more than its buffers that are not held.
    fn shown_of(&self, peer: u8, most: u64) -> u32
        ensures count { (p : Peer) → peer_of self.now peer ≡ Some p → result ≡ shown_by self.now peer most p }
    {
        let held = self.held_from(peer);
        match self.peer_numbered(peer) {
            Some(p) => {
                if most < u64::from(p.shown) {
                    p.shown
                } else {
                    most.min(u64::from(p.size).saturating_sub(held)) as u32
                }
            }
            None => 0,
        }
    }

    /// The first frame that is owed to a peer is put.
    pub fn put_owed(&mut self, peer: u8)
        ensures { (frame : List ℕ) → self.new ≡ after_deed self.old (puts_owed peer frame) }
    {
        self.use_first_owed(peer);
    }
}

/// The first of these peers that has this number.
fn find_numbered(peers: &[Peer], number: u8) -> Option<&Peer>
    ensures { option_map (λ p. p.now) result ≡ find (is_numbered number) peers.now }
{
    peers.iter().find(|p| p.number == number)
}
