//! The call that puts a frame as it is, after its turn.

ghost use Rattle.std.specs.Prelude.{◌≤◌, ◌+◌, ◌≡◌, None, length, map};
ghost use Rattle.board_model.specs.Answer.{puts};
ghost use Rattle.board_model.specs.DomainCall.{raw_to};
ghost use Rattle.board_model.specs.Journal.{noted_all};
ghost use Rattle.board_model.specs.Serial.{put_entry};
ghost use Rattle.domain_parts.specs.Calls.{sent};
ghost use Rattle.domain_parts.specs.CallSteps.{Acts};
ghost use Rattle.domain_parts.specs.Parts.{state_of};

use crate::holdings::Holdings;
use crate::peer_lane::PeerLane;
use mc_base::Refusal;
use mc_journal::{Entry, Journal};
use name_service::fault_of;

impl<P: PeerLane> Holdings<P> {
    /// `raw_put` after its turn.
    pub fn put_raw(&mut self, journal: &mut Journal, peer: u8, frame: &[u8]) -> Result<(), Refusal>
        requires some { 1 ≤ length frame.now }
        requires fits { length frame.now ≤ 512 }
        requires entry_room { 1 ≤ journal.old.entry_room }
        requires byte_room { 512 ≤ journal.old.byte_room }
        ensures acts { Acts P.Moved 0 (raw_to peer frame.now) self.old self.new (sent result) None }
        ensures told { journal.new.lines ≡ noted_all journal.old.lines (map put_entry (puts (state_of self.old.parts) 0 (raw_to peer frame.now))) }
        ensures entry_room { journal.old.entry_room ≤ journal.new.entry_room + 1 }
        ensures byte_room { journal.old.byte_room ≤ journal.new.byte_room + 512 }
    {
        if !self.has_peer(peer) {
            return Err(Refusal::LinkInvalid);
        }
        if fault_of(frame).is_none() {
            return Err(Refusal::RawSound);
        }
        if self.free_to(peer) == 0 {
            return Err(Refusal::NoBuffer);
        }
        journal.note(Entry::Put { peer, frame });
        self.put(peer, frame);
        Ok(())
    }
}
