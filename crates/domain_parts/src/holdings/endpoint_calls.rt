//! The calls that make and end endpoints, after their turns.

ghost use Rattle.std.specs.Prelude.{◌≡◌, ◌<◌, ◌∷◌, [], None, Some, length};
ghost use Rattle.std.specs.List.{AllByRecursion};
ghost use Rattle.mc_base.specs.declared.request.Slot.{Slot};
ghost use Rattle.board_model.specs.DomainCall.{create_at, delete_at};
ghost use Rattle.board_model.specs.State.{place_at};
ghost use Rattle.domain_parts.specs.Calls.{created, deleted};
ghost use Rattle.domain_parts.specs.CallSteps.{Acts, drops};
ghost use Rattle.domain_parts.specs.InBook.{frames_at};
ghost use Rattle.domain_parts.specs.Parts.{state_of};
ghost use Rattle.domain_parts.specs.Records.{slots_at};
ghost use Rattle.domain_parts.specs.Steps.{Did, endpoint_gone, oldest_dropped};

use crate::holdings::Holdings;
use crate::peer_lane::PeerLane;
use crate::peers::give_back;
use crate::requests::{Waiters, complete_all};
use mc_base::{EndName, Local, Refusal};
use request_set::Complete;

impl<P: PeerLane> Holdings<P> {
    /// `create` after its turn.
    pub fn add_endpoint(&mut self, at: Local) -> Result<u32, Refusal>
        ensures { Acts P.Moved at.node (create_at at.port) self.old self.new (created result) None }
    {
        let address = self.table.create(at)?;
        self.endpoints.add(at);
        let name = EndName {
            domain: self.endpoints.number(),
            node: at.node,
            port: at.port,
        };
        complete_all(
            &mut self.requests,
            Waiters::Lookups(name),
            Complete::Address(address),
        );
        Ok(address)
    }

    /// `delete` after its turn.
    pub fn remove_endpoint(&mut self, at: Local) -> Result<u32, Refusal>
        ensures { Acts P.Moved at.node (delete_at at.port) self.old self.new (deleted result) None }
    {
        let Some(place) = self.place_at(at) else {
            return Err(Refusal::EndpInvalid);
        };
        if self.has_channel(at, place) {
            return Err(Refusal::ChanConnected);
        }
        let dropped = self.drop_all(place);
        self.remove_empty(place, at);
        Ok(dropped)
    }

    /// Drops all messages that are queued at a place, the oldest first, and returns how many these were.
    pub(super) fn drop_all(&mut self, place: usize) -> u32
        requires within { place < length self.old.parts.records.endpoints }
        ensures count { result ≡ length (slots_at self.old.parts.records place) }
        ensures none { slots_at self.new.parts.records place ≡ [] }
        ensures did { Did P.Moved (drops self.old.parts.book place (slots_at self.old.parts.records place)) self.old self.new }
    {
        let count = self.endpoints.queued_at(place);
        for _ in 0..count {
            self.drop_oldest(place);
        }
        count
    }

    /// Drops the oldest message that waits at a place, and gives its buffers back.
    pub(super) fn drop_oldest(&mut self, place: usize)
        requires waits { 0 < length (slots_at self.old.parts.records place) }
        ensures still { AllByRecursion (λ s. frames_at self.new.parts.book s ≡ frames_at self.old.parts.book s) (slots_at self.new.parts.records place) }
        ensures did { (s : Slot) × (slots_at self.old.parts.records place ≡ s ∷ slots_at self.new.parts.records place) × Did P.Moved (oldest_dropped place s (frames_at self.old.parts.book s) ∷ []) self.old self.new }
    {
        let slot = self.endpoints.take_oldest(place).unwrap();
        give_back(&mut self.book, &mut self.peers, slot);
    }

    /// Ends the endpoint of this name, at whose place nothing waits. Receives that wait there end with a word.
    fn remove_empty(&mut self, place: usize, at: Local)
        requires there { place_at (state_of self.old.parts) at ≡ Some place }
        requires empty { slots_at self.old.parts.records place ≡ [] }
        ensures { Did P.Moved (endpoint_gone place at ∷ []) self.old self.new }
    {
        self.table.delete(at).unwrap();
        self.endpoints.remove(place);
        complete_all(
            &mut self.requests,
            Waiters::Receives(at),
            Complete::Ended(Refusal::EndpInvalid),
        );
    }
}
