//! The calls of a pair that wait for requests.

ghost use Rattle.std.specs.Prelude.{◌≡◌, ◌≤◌, ◌∷◌, [], false, true, IfOk, OnErr, length};
ghost use Rattle.mc_base.specs.Limits.{item_size};
ghost use Rattle.domain_core.specs.Awaiting.{first_settled};
ghost use Rattle.domain_core.specs.Calls.{GivesTo, LendsBy};
ghost use Rattle.domain_core.specs.DomainView.{packet_lent_as};
ghost use Rattle.domain_core.specs.Room.{call_bytes, call_entries};
ghost use Rattle.domain_core.specs.Waiting.{waited, waited_any};
ghost use Rattle.linked_pair.specs.Pair.{WaitsAt, domain_of};

use crate::member::Which;
use crate::pair::LinkedPair;
use arrayvec::ArrayVec;
use domain_core::{WaitFault, domains_stay_linked, waits_move_ends};
use mc_base::{Done, RequestId};
use mc_journal::Journal;

impl LinkedPair {
    /// Waits for a request for at most `limit` turns, as [`Domain::wait`]. `out` has at least 8,192 bytes.
    pub fn wait(
        &mut self,
        which: Which,
        journal: &mut Journal,
        number: u32,
        id: RequestId,
        limit: u32,
        out: &mut [u8],
    ) -> Result<Done, WaitFault>
        requires entry_room { call_entries ≤ journal.old.entry_room }
        requires byte_room { call_bytes ≤ journal.old.byte_room }
        requires out { item_size ≤ length out.old }
        ensures wait { WaitsAt which number limit (id ∷ []) false self.old self.new journal.old.lines journal.new.lines (waited result out.new (packet_lent_as (domain_of which self.new))) }
        ensures message { IfOk result (λ done. GivesTo done out.old out.new) }
        ensures lent { IfOk result (LendsBy (domain_of which self.old) (domain_of which self.new)) }
        ensures refused { OnErr result (out.new ≡ out.old) }
    {
        waits_move_ends();
        domains_stay_linked();
        match which {
            Which::One => self.one.wait(journal, number, id, limit, out),
            Which::Two => self.two.wait(journal, number, id, limit, out),
        }
    }

    /// Waits for one of several requests, as [`Domain::wait_any`]. `out` has at least 8,192 bytes.
    pub fn wait_any(
        &mut self,
        which: Which,
        journal: &mut Journal,
        number: u32,
        ids: &ArrayVec<RequestId, 8>,
        limit: u32,
        out: &mut [u8],
    ) -> Result<(u8, Done), WaitFault>
        requires some { 1 ≤ length ids.now.items }
        requires entry_room { call_entries ≤ journal.old.entry_room }
        requires byte_room { call_bytes ≤ journal.old.byte_room }
        requires out { item_size ≤ length out.old }
        ensures wait { WaitsAt which number limit ids.now.items true self.old self.new journal.old.lines journal.new.lines (waited_any result out.new (packet_lent_as (domain_of which self.new))) }
        ensures message { IfOk result (λ x. GivesTo x.1 out.old out.new) }
        ensures lent { IfOk result (λ x. LendsBy (domain_of which self.old) (domain_of which self.new) x.1) }
        ensures refused { OnErr result (out.new ≡ out.old) }
    {
        waits_move_ends();
        domains_stay_linked();
        match which {
            Which::One => self.one.wait_any(journal, number, ids, limit, out),
            Which::Two => self.two.wait_any(journal, number, ids, limit, out),
        }
    }

    /// The first place in the list, counted from 1, whose request is complete, as [`Domain::settled`].
    pub fn settled(&self, which: Which, ids: &ArrayVec<RequestId, 8>) -> Option<u8>
        requires { 1 ≤ length ids.now.items }
        ensures { result ≡ first_settled ids.now.items (domain_of which self.now) }
    {
        match which {
            Which::One => self.one.settled(ids),
            Which::Two => self.two.settled(ids),
        }
    }
}
