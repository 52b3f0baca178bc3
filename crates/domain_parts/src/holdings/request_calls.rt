//! The calls that begin and end requests, after their turns.

ghost use Rattle.std.specs.Prelude.{◌≡◌, ◌≤◌, ◌<◌, ◌∷◌, [], false, true, IfOk, IfSome, IsNone, None, OnErr, Some, length, map, nat_le};
ghost use Rattle.mc_base.specs.Limits.{request_limit, item_size};
ghost use Rattle.board_model.specs.DomainCall.{cancel_of, lookup_of, request_at, test_of};
ghost use Rattle.board_model.specs.State.{place_at};
ghost use Rattle.domain_parts.specs.Calls.{GivesTo, IsFresh, LendsBy, cancelled, given, requested, tested};
ghost use Rattle.domain_parts.specs.CallSteps.{Acts, Succeeds};
ghost use Rattle.domain_parts.specs.DomainView.{packet_lent_as, place_of_id};
ghost use Rattle.domain_parts.specs.InRequests.{Receives, slots_in};
ghost use Rattle.domain_parts.specs.Parts.{Sound, shown, state_of};
ghost use Rattle.domain_parts.specs.Steps.{Did, request_begun};

use crate::holdings::Holdings;
use crate::messages::give;
use crate::peer_lane::PeerLane;
use crate::peers::give_back;
use crate::requests::told;
use mc_base::{Done, EndName, Local, Refusal, RequestId};
use request_set::{Ask, Complete};

impl<P: PeerLane> Holdings<P> {
    /// `lookup` after its turn.
    pub fn begin_lookup(&mut self, name: EndName) -> Result<RequestId, Refusal>
        ensures { Acts P.Moved 0 (lookup_of name) self.old self.new (requested result) (given result) }
    {
        let how = match self.address_of(name) {
            Some(address) => Some(Complete::Address(address)),
            None => None,
        };
        let Some(id) = self.begin_request(Ask::Lookup(name), how) else {
            return Err(Refusal::RequestLimit);
        };
        Ok(id)
    }

    /// Begins a request that holds no message, or returns `None` where 64 requests exist.
    pub(super) fn begin_request(&mut self, ask: Ask, how: Option<Complete>) -> Option<RequestId>
        requires may { Receives ask how }
        requires quiet { slots_in how ≡ [] }
        ensures none { IsNone result → nat_le request_limit (length (state_of self.old.parts).requests) ≡ true }
        ensures stays { IsNone result → self.new ≡ self.old }
        ensures some { IfSome result (λ id. nat_le request_limit (length (state_of self.old.parts).requests) ≡ false) }
        ensures did { IfSome result (λ id. Did P.Moved (request_begun id ask how ∷ []) self.old self.new) }
        ensures fresh { IfSome result (λ id. IsFresh (shown self.old).ids (state_of self.old.parts) id) }
    {
        let Ok(id) = self.requests.add(ask) else {
            return None;
        };
        if let Some(how) = how {
            self.requests.complete(id, how);
        }
        Some(id)
    }

    /// `msg_recv_i` after its turn.
    pub fn begin_receive(&mut self, at: Local, max: u32) -> Result<RequestId, Refusal>
        ensures { Acts P.Moved at.node (request_at at.port max) self.old self.new (requested result) (given result) }
    {
        let Some(place) = self.place_at(at) else {
            return Err(Refusal::EndpInvalid);
        };
        if self.has_channel(at, place) {
            return Err(Refusal::OnChannel);
        }
        let Some(id) = self.begin_receive_at(at, place, max) else {
            return Err(Refusal::RequestLimit);
        };
        Ok(id)
    }

    /// Begins a receive at an endpoint, with the best message where one is queued, or returns `None` where 64 requests exist.
    fn begin_receive_at(&mut self, at: Local, place: usize, max: u32) -> Option<RequestId>
        requires there { place_at (state_of self.old.parts) at ≡ Some place }
        requires within { place < length self.old.parts.records.endpoints }
        ensures none { IsNone result → nat_le request_limit (length (state_of self.old.parts).requests) ≡ true }
        ensures stays { IsNone result → self.new ≡ self.old }
        ensures some { IfSome result (λ id. nat_le request_limit (length (state_of self.old.parts).requests) ≡ false) }
        ensures serial { IfSome result (λ id. id.serial ≡ (state_of self.old.parts).requests_given) }
        ensures succeeds { IfSome result (λ id. Succeeds P.Moved at.node (request_at at.port max) self.old self.new (Some id)) }
    {
        let Ok(id) = self.requests.add(Ask::Message(at, max)) else {
            return None;
        };
        if let Some((slot, _)) = self.endpoints.take_best(place) {
            self.requests.complete(id, Complete::Message(slot, max));
        }
        Some(id)
    }

    /// `test` after its turn.
    pub fn end_request(&mut self, id: RequestId, out: &mut [u8]) -> Result<Done, Refusal>
        requires { item_size ≤ length out.old }
        ensures acts { Acts P.Moved 0 (test_of (place_of_id (shown self.old).ids id)) self.old self.new (tested result out.new (packet_lent_as (shown self.new))) None }
        ensures message { IfOk result (λ done. GivesTo done out.old out.new) }
        ensures lent { IfOk result (LendsBy (shown self.old) (shown self.new)) }
        ensures refused { OnErr result (out.new ≡ out.old) }
    {
        let how = self.requests.test(id)?;
        if let Complete::Packet(slot) = how {
            let packet = self.book.lend(slot);
            self.endpoints.keep_lent(packet);
            return Ok(Done::Packet(packet));
        }
        let Complete::Message(slot, max) = how else {
            return Ok(told(how));
        };
        let most = out.len().min(max as usize);
        let got = give(&self.book, slot, most, out);
        give_back(&mut self.book, &mut self.peers, slot);
        Ok(Done::Message(got))
    }

    /// `cancel` after its turn.
    pub fn end_pending(&mut self, id: RequestId) -> Result<(), Refusal>
        ensures { Acts P.Moved 0 (cancel_of (place_of_id (shown self.old).ids id)) self.old self.new (cancelled result) None }
    {
        self.requests.cancel(id)?;
        Ok(())
    }
}
