//! The calls that send and receive messages, after their turns.

ghost use Rattle.std.specs.Prelude.{◌≡◌, ◌==◌, ◌≤◌, ◌<◌, ◌+◌, [], false, IfOk, IfSome, IsNone, None, OnErr, Some, drop, length, map, take};
ghost use Rattle.board_model.specs.Answer.{puts, success};
ghost use Rattle.board_model.specs.DomainCall.{available_at, receive_at, send_from};
ghost use Rattle.board_model.specs.Journal.{gives, noted_all};
ghost use Rattle.board_model.specs.Serial.{put_entry};
ghost use Rattle.board_model.specs.State.{place_at, queue_at};
ghost use Rattle.domain_parts.specs.Calls.{available, received, sent};
ghost use Rattle.domain_parts.specs.CallSteps.{Acts, Succeeds, call_steps};
ghost use Rattle.domain_parts.specs.Parts.{state_of};
ghost use Rattle.domain_parts.specs.Room.{item_bytes, item_entries};
ghost use Rattle.domain_parts.specs.Steps.{Did};

use crate::holdings::Holdings;
use crate::messages::give;
use crate::outgoing::Outgoing;
use crate::parts::Carrier;
use crate::peer_lane::PeerLane;
use crate::peers::give_back;
use mc_base::{EndName, Got, Local, Priority, Refusal};
use mc_journal::Journal;

impl<P: PeerLane> Holdings<P> {
    /// `msg_send` after its turn.
    pub fn put_message(
        &mut self,
        journal: &mut Journal,
        from: Local,
        to: EndName,
        priority: Priority,
        bytes: &[u8],
    ) -> Result<(), Refusal>
        requires entry_room { item_entries ≤ journal.old.entry_room }
        requires byte_room { item_bytes ≤ journal.old.byte_room }
        ensures acts { Acts P.Moved from.node (send_from from.port to priority bytes.now) self.old self.new (sent result) None }
        ensures told { journal.new.lines ≡ noted_all journal.old.lines (map put_entry (puts (state_of self.old.parts) from.node (send_from from.port to priority bytes.now))) }
        ensures entry_room { journal.old.entry_room ≤ journal.new.entry_room + item_entries }
        ensures byte_room { journal.old.byte_room ≤ journal.new.byte_room + item_bytes }
    {
        let Some(place) = self.place_at(from) else {
            return Err(Refusal::EndpInvalid);
        };
        if self.has_channel(from, place) {
            return Err(Refusal::OnChannel);
        }
        let source = self.address_at(from, place);
        let Some(destination) = self.address_of(to) else {
            return Err(Refusal::PeerInvalid);
        };
        let item = Outgoing {
            peer: to.domain,
            source,
            destination,
            carrier: Carrier::Message(priority),
            bytes,
        };
        if self.is_too_long(&item) {
            return Err(Refusal::MsgSize);
        }
        self.put_item(journal, &item)
    }

    /// `msg_recv` after its turn.
    pub fn take_message(&mut self, at: Local, out: &mut [u8]) -> Result<Got, Refusal>
        ensures acts { Acts P.Moved at.node (receive_at at.port (length out.old)) self.old self.new (received result out.new) None }
        ensures given { IfOk result (λ got. got.given ≤ length out.old) }
        ensures rest { IfOk result (λ got. drop got.given out.new ≡ drop got.given out.old) }
        ensures refused { OnErr result (out.new ≡ out.old) }
    {
        let Some(place) = self.place_at(at) else {
            return Err(Refusal::EndpInvalid);
        };
        if self.has_channel(at, place) {
            return Err(Refusal::OnChannel);
        }
        let Some(got) = self.drop_best(at, place, out) else {
            return Err(Refusal::Empty);
        };
        Ok(got)
    }

    /// Takes the best message at an endpoint, gives its first bytes, and gives its buffers back.
    fn drop_best(&mut self, at: Local, place: usize, out: &mut [u8]) -> Option<Got>
        requires there { place_at (state_of self.old.parts) at ≡ Some place }
        requires within { place < length self.old.parts.records.endpoints }
        ensures none { IsNone result → queue_at (state_of self.old.parts) at ≡ [] }
        ensures stays { IsNone result → (self.new ≡ self.old) × (out.new ≡ out.old) }
        ensures some { IfSome result (λ got. (length (queue_at (state_of self.old.parts) at) == 0) ≡ false) }
        ensures succeeds { IfSome result (λ got. Succeeds P.Moved at.node (receive_at at.port (length out.old)) self.old self.new None) }
        ensures answer { IfSome result (λ got. gives got.size (take got.given out.new) ≡ success (state_of self.old.parts) at.node (receive_at at.port (length out.old))) }
        ensures given { IfSome result (λ got. got.given ≤ length out.old) }
        ensures rest { IfSome result (λ got. drop got.given out.new ≡ drop got.given out.old) }
    {
        let (slot, _) = self.endpoints.take_best(place)?;
        let got = give(&self.book, slot, out.len(), out);
        give_back(&mut self.book, &mut self.peers, slot);
        Some(got)
    }

    /// `msg_available` after its turn.
    pub fn count_messages(&self, at: Local) -> Result<u32, Refusal>
        ensures { Acts P.Moved at.node (available_at at.port) self.now self.now (available result) None }
    {
        let Some(place) = self.place_at(at) else {
            return Err(Refusal::EndpInvalid);
        };
        if self.has_channel(at, place) {
            return Err(Refusal::OnChannel);
        }
        Ok(self.count_at(at, place))
    }

    /// How many messages or items wait at an endpoint.
    pub(super) fn count_at(&self, at: Local, place: usize) -> u32
        requires there { place_at (state_of self.now.parts) at ≡ Some place }
        requires within { place < length self.now.parts.records.endpoints }
        ensures count { result ≡ length (queue_at (state_of self.now.parts) at) }
        ensures succeeds { Succeeds P.Moved at.node (available_at at.port) self.now self.now None }
    {
        self.endpoints.queued_at(place)
    }
}
