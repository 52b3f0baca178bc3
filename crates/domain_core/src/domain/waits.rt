//! The calls that wait for requests.

ghost use Rattle.std.specs.Prelude.{◌≡◌, ◌≤◌, ◌∷◌, [], false, true, IfOk, OnErr, length};
ghost use Rattle.mc_base.specs.Limits.{item_size};
ghost use Rattle.domain_parts.specs.Awaiting.{first_settled};
ghost use Rattle.domain_parts.specs.Calls.{GivesTo, LendsBy};
ghost use Rattle.domain_parts.specs.DomainView.{packet_lent_as};
ghost use Rattle.domain_parts.specs.Ends.{EndsMoved};
ghost use Rattle.domain_parts.specs.Room.{call_bytes, call_entries};
ghost use Rattle.domain_parts.specs.Waiting.{Waits, waited, waited_any};

use crate::domain::Domain;
use arrayvec::ArrayVec;
use domain_parts::WaitFault;
use lane_end::{RecvEnd, SendEnd};
use mc_base::{Done, RequestId};
use mc_journal::Journal;

impl<S: SendEnd, R: RecvEnd> Domain<S, R> {
    /// Makes turns until a request is complete, at most `limit`, and ends it as [`test`](Domain::test) does. Where the request is
    /// complete already it makes no turn. Otherwise the journal records the start of the wait, under `number`, which is that of its
    /// line in a script, and each turn. `out` has at least 8,192 bytes.
    ///
    /// # Errors
    ///
    /// `out` stays as it is.
    ///
    /// - `Refused(RequestInvalid)`: no request has the id. It makes no turn.
    /// - `Refused(Timeout)`: `limit` turns were made, and none completed the request, which still exists.
    /// - `NoMemory`: the journal cannot grow for the next turn. The domain is as after the last whole turn.
    pub fn wait(
        &mut self,
        journal: &mut Journal,
        number: u32,
        id: RequestId,
        limit: u32,
        out: &mut [u8],
    ) -> Result<Done, WaitFault>
        requires entry_room { call_entries ≤ journal.old.entry_room }
        requires byte_room { call_bytes ≤ journal.old.byte_room }
        requires out { item_size ≤ length out.old }
        ensures wait { Waits (EndsMoved S.Moved R.Moved) number limit (id ∷ []) false self.old self.new journal.old.lines journal.new.lines (waited result out.new (packet_lent_as self.new)) }
        ensures message { IfOk result (λ done. GivesTo done out.old out.new) }
        ensures lent { IfOk result (LendsBy self.old self.new) }
        ensures refused { OnErr result (out.new ≡ out.old) }
    {
        let (_, done) = self.inside.wait_for(journal, number, &[id], limit, out)?;
        Ok(done)
    }

    /// Waits for one of 1 to 8 requests, as [`wait`](Domain::wait) does for one. It ends the first complete request in the list and
    /// no other, and returns its place, counted from 1.
    ///
    /// # Errors
    ///
    /// As `wait`; `RequestInvalid` where one of the requests does not exist.
    pub fn wait_any(
        &mut self,
        journal: &mut Journal,
        number: u32,
        ids: &ArrayVec<RequestId, 8>,
        limit: u32,
        out: &mut [u8],
    ) -> Result<(u8, Done), WaitFault>
        requires some { 1 ≤ length ids.now.items }
        requires entry_room { call_entries ≤ journal.old.entry_room }
        requires byte_room { call_bytes ≤ journal.old.byte_room }
        requires out { item_size ≤ length out.old }
        ensures wait { Waits (EndsMoved S.Moved R.Moved) number limit ids.now.items true self.old self.new journal.old.lines journal.new.lines (waited_any result out.new (packet_lent_as self.new)) }
        ensures message { IfOk result (λ x. GivesTo x.1 out.old out.new) }
        ensures lent { IfOk result (λ x. LendsBy self.old self.new x.1) }
        ensures refused { OnErr result (out.new ≡ out.old) }
    {
        let (at, done) = self
            .inside
            .wait_for(journal, number, ids.as_slice(), limit, out)?;
        Ok((at as u8 + 1, done))
    }

    /// Returns the place of the first complete request in a list of 1 to 8, counted from 1, or `None` where none is complete. It
    /// makes no turn.
    pub fn settled(&self, ids: &ArrayVec<RequestId, 8>) -> Option<u8>
        requires { 1 ≤ length ids.now.items }
        ensures { result ≡ first_settled ids.now.items self.now }
    {
        let at = self.inside.first_done(ids.as_slice())?;
        Some(at as u8 + 1)
    }
}
