//! Waits: their turns, and how they end.

ghost use Rattle.std.specs.Prelude.{◌≡◌, ◌≤◌, ◌<◌, Bool, None, Some, true, IfOk, IfSome, OnErr, length};
ghost use Rattle.std.specs.List.{list_all};
ghost use Rattle.board_model.specs.Answer.{stands_at};
ghost use Rattle.board_model.specs.Journal.{completes};
ghost use Rattle.domain_parts.specs.Awaiting.{all_exist, first_complete_in};
ghost use Rattle.domain_parts.specs.Calls.{Does, GivesTo, LendsBy, result_of_done};
ghost use Rattle.domain_parts.specs.CallSteps.{Rests};
ghost use Rattle.domain_parts.specs.DomainView.{packet_lent_as, place_of_id};
ghost use Rattle.domain_parts.specs.Parts.{shown};
ghost use Rattle.domain_parts.specs.Waiting.{AreAwaited, Polled, Waits, place_told, wait_on, waited_at};
ghost use Rattle.mc_base.specs.Limits.{item_size};

use crate::holdings::Holdings;
use crate::peer_lane::PeerLane;
use crate::room::{CALL_BYTES, CALL_ENTRIES};
use crate::wait_fault::WaitFault;
use mc_base::{Done, NoMemory, Refusal, RequestId};
use mc_journal::{Entry, Journal};

impl<P: PeerLane> Holdings<P> {
    /// Whether a request exists.
    fn exists(&self, id: RequestId) -> bool
        ensures { result ≡ stands_at (shown self.now).state (place_of_id (shown self.now).ids id) }
    {
        self.requests.asked(id).is_some()
    }

    /// Whether all of these requests exist.
    fn all_exist(&self, ids: &[RequestId]) -> bool
        ensures { result ≡ list_all (λ id. stands_at (shown self.now).state (place_of_id (shown self.now).ids id)) ids.now }
    {
        ids.iter().all(|id| self.exists(*id))
    }

    /// Returns the first of these requests that is complete, by its place in the list.
    pub fn first_done(&self, ids: &[RequestId]) -> Option<usize>
        ensures first { result ≡ first_complete_in ids.now (shown self.now) }
        ensures within { IfSome result (λ at. at < length ids.now) }
        ensures rests { Rests P.Moved self.now }
    {
        self.requests.first_done(ids)
    }

    /// A wait: without a turn where it needs none, and else with turns until one of its requests is complete, at most so many.
    pub fn wait_for(
        &mut self,
        journal: &mut Journal,
        number: u32,
        ids: &[RequestId],
        limit: u32,
        out: &mut [u8],
    ) -> Result<(usize, Done), WaitFault>
        requires entry_room { 1 ≤ journal.old.entry_room }
        requires out { item_size ≤ length out.old }
        ensures waits { (says_place : Bool) → Waits P.Moved number limit ids.now says_place (shown self.old) (shown self.new) journal.old.lines journal.new.lines (waited_at says_place result out.new (packet_lent_as (shown self.new))) }
        ensures within { IfOk result (λ x. x.0 < length ids.now) }
        ensures message { IfOk result (λ x. GivesTo x.1 out.old out.new) }
        ensures lent { IfOk result (λ x. LendsBy (shown self.old) (shown self.new) x.1) }
        ensures refused { OnErr result (out.new ≡ out.old) }
    {
        let first = self.first_done(ids);
        if !self.all_exist(ids) {
            return Err(WaitFault::Refused(Refusal::RequestInvalid));
        }
        if let Some(at) = first {
            return Ok((at, self.end_first(ids, at, out)));
        }
        journal.note(Entry::WaitStart { number });
        match self.poll(journal, ids, limit) {
            Ok(Some(at)) => Ok((at, self.end_first(ids, at, out))),
            Ok(None) => Err(WaitFault::Refused(Refusal::Timeout)),
            Err(_) => Err(WaitFault::NoMemory),
        }
    }

    /// Makes turns until one of these requests is complete, at most so many, and returns the first that is by its place in the
    /// list.
    fn poll(
        &mut self,
        journal: &mut Journal,
        ids: &[RequestId],
        limit: u32,
    ) -> Result<Option<usize>, NoMemory>
        requires awaited { AreAwaited ids.now (shown self.old) }
        requires rests { Rests P.Moved self.old }
        ensures polled { Polled P.Moved limit ids.now (shown self.old) (shown self.new) journal.old.lines journal.new.lines result }
        ensures rests { Rests P.Moved self.new }
    {
        for _ in 0..limit {
            journal.reserve(CALL_ENTRIES, CALL_BYTES)?;
            self.take_turn(journal);
            if let Some(at) = self.first_done(ids) {
                return Ok(Some(at));
            }
        }
        Ok(None)
    }

    /// Ends the first of these requests that is complete, which is at this place in the list.
    fn end_first(&mut self, ids: &[RequestId], at: usize, out: &mut [u8]) -> Done
        requires exist { all_exist ids.now (shown self.old) ≡ true }
        requires first { first_complete_in ids.now (shown self.old) ≡ Some at }
        requires rests { Rests P.Moved self.old }
        requires out { item_size ≤ length out.old }
        ensures does { (says_place : Bool) → Does P.Moved 0 (wait_on ids.now says_place (shown self.old)) (shown self.old) (shown self.new) (completes (place_told says_place at) (result_of_done result out.new (packet_lent_as (shown self.new)))) None }
        ensures message { GivesTo result out.old out.new }
        ensures lent { LendsBy (shown self.old) (shown self.new) result }
    {
        self.end_request(ids[at], out).unwrap()
    }
}
