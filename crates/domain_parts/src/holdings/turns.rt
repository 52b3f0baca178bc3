//! Turns: a visit to each peer, in rising number.

ghost use Rattle.std.specs.Prelude.{◌≡◌, ◌≤◌, ◌<◌, ◌+◌, ◌∷◌, [], length};
ghost use Rattle.board_model.specs.Deeds.{looks_ahead, looks_back};
ghost use Rattle.board_model.specs.State.{held_from};
ghost use Rattle.lane_end.specs.ReceiveMoves as receiving;
ghost use Rattle.lane_end.specs.SendMoves.{Looked};
ghost use Rattle.domain_parts.specs.CallSteps.{Rests};
ghost use Rattle.domain_parts.specs.Doing.{Doing, Visits, owed_at};
ghost use Rattle.domain_parts.specs.LaneMoves.{receiver, sender};
ghost use Rattle.domain_parts.specs.Owed.{room_for};
ghost use Rattle.domain_parts.specs.Parts.{Sound, peer_at, shown, state_of};
ghost use Rattle.domain_parts.specs.Turned.{MakesTurn, VisitsAll};

use crate::holdings::Holdings;
use crate::noting::{note_back, note_see};
use crate::peer_lane::PeerLane;
use mc_base::TURN_FRAMES;
use mc_journal::{Entry, Journal};

impl<P: PeerLane> Holdings<P> {
    /// Makes a turn, notes it, and returns whether it was idle.
    pub fn take_turn(&mut self, journal: &mut Journal) -> bool
        requires entry_room { 145 ≤ journal.old.entry_room }
        requires byte_room { 65536 ≤ journal.old.byte_room }
        ensures turn { MakesTurn P.Moved (shown self.old) (shown self.new) journal.old.lines journal.new.lines result }
        ensures rests { Rests P.Moved self.new }
        ensures entry_room { journal.old.entry_room ≤ journal.new.entry_room + 145 }
        ensures byte_room { journal.old.byte_room ≤ journal.new.byte_room + 65536 }
    {
        if self.visit_peers(journal) {
            return false;
        }
        journal.note(Entry::Idle { turns: 1 });
        true
    }

    /// Visits each peer. Returns whether a visit was not idle.
    fn visit_peers(&mut self, journal: &mut Journal) -> bool
        requires entry_room { 145 ≤ journal.old.entry_room }
        requires byte_room { 65536 ≤ journal.old.byte_room }
        ensures visits { VisitsAll P.Moved (shown self.old) (shown self.new) journal.old.lines journal.new.lines result }
        ensures rests { Rests P.Moved self.new }
        ensures entry_room { journal.old.entry_room + room_for result ≤ journal.new.entry_room + 146 }
        ensures byte_room { journal.old.byte_room ≤ journal.new.byte_room + 65536 }
    {
        let mut begun = false;
        for place in 0..self.count_peers() {
            begun = self.visit_peer(journal, place, begun);
        }
        begun
    }

    /// Visits the peer at a place: looks at the buffers that came back, puts what is owed as far as buffers are free, looks at the
    /// frames that came, and takes the first ones. At most 8 frames are put, and at most 8 taken. Returns whether the turn has
    /// begun, which it does at its first visit that is not idle.
    fn visit_peer(&mut self, journal: &mut Journal, place: usize, begun: bool) -> bool
        requires within { place < length self.old.parts.peers }
        requires entry_room { 17 + room_for begun ≤ journal.old.entry_room }
        requires byte_room { 8192 ≤ journal.old.byte_room }
        ensures visits { Visits P.Moved place begun result self.old self.new journal.old.lines journal.new.lines }
        ensures entry_room { journal.old.entry_room + room_for result ≤ journal.new.entry_room + 18 + room_for begun }
        ensures byte_room { journal.old.byte_room ≤ journal.new.byte_room + 8192 }
    {
        let peer = self.number_at(place);
        let back = self.look_back(place);
        let begun = note_back(journal, peer, begun, back);
        let begun = self.put_owed(journal, place, begun);
        let see = self.look_ahead(place);
        let begun = note_see(journal, peer, begun, see);
        let count = TURN_FRAMES.min(see as usize);
        self.take_frames(journal, place, count);
        begun
    }

    /// How many peers there are.
    fn count_peers(&self) -> usize
        ensures count { result ≡ length self.now.parts.peers }
        ensures few { result ≤ 8 }
        ensures rests { Rests P.Moved self.now }
        ensures sound { Sound self.now.parts }
    {
        self.peers.len()
    }

    /// The number of the peer at a place.
    fn number_at(&self, place: usize) -> u8
        requires { place < length self.now.parts.peers }
        ensures number { result ≡ (peer_at self.now.parts place).number }
        ensures sound { Sound self.now.parts }
    {
        self.peers[place].number
    }

    /// Looks once at the buffers that came back from the peer at a place, and returns how many there are.
    fn look_back(&mut self, place: usize) -> u32
        requires { place < length self.old.parts.peers }
        ensures doing { let peer = (peer_at self.old.parts place).number in Doing P.Moved peer (looks_back peer result ∷ []) (sender (Looked result) ∷ []) self.old self.new }
        ensures fits { (peer_at self.old.parts place).ends.free + result ≤ (peer_at self.old.parts place).ends.size_from }
        ensures owed { owed_at self.new.parts place ≡ owed_at self.old.parts place }
    {
        self.peers[place].ends.look_back()
    }

    /// Looks once at the frames that came from the peer at a place, and returns how many it shows.
    fn look_ahead(&mut self, place: usize) -> u32
        requires { place < length self.old.parts.peers }
        ensures doing { let peer = (peer_at self.old.parts place).number in Doing P.Moved peer (looks_ahead peer result ∷ []) (receiver (receiving.Looked result) ∷ []) self.old self.new }
        ensures more { (peer_at self.old.parts place).ends.shown ≤ result }
        ensures fits { result + held_from (peer_at self.old.parts place).number (state_of self.old.parts) ≤ (peer_at self.old.parts place).ends.size_from }
    {
        self.peers[place].ends.look_ahead()
    }
}
