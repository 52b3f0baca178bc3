ghost use Rattle.std.specs.Prelude.{◌≡◌, ◌≢◌, ◌≤◌, ◌+◌, ◌↔◌, ◌∷◌, [], IfOk, IsErrOf, OnErr, None, ℕ, drop, length};
ghost use Rattle.mc_base.specs.Limits.{item_size};
ghost use Rattle.lane_end.specs.Numbers.{IsLaneSize};
ghost use Rattle.lane_end.specs.PlainReceiver.{Receives};
ghost use Rattle.lane_end.specs.PlainSender.{Sends};
ghost use Rattle.board_model.specs.DomainCall.{create_at, delete_at, lookup_of, turn_alone, send_from, receive_at, request_at, available_at, test_of, cancel_of};
ghost use Rattle.board_model.specs.Journal.{agrees};
ghost use Rattle.domain_core.specs.Room.{call_entries, call_bytes};
ghost use Rattle.domain_core.specs.DomainView.{packet_lent_as, place_of_id};
ghost use Rattle.domain_core.specs.Calls.{GivesTo, LendsBy, created, deleted, sent, received, requested, given, available, tested, cancelled};
ghost use Rattle.domain_core.specs.Carrying.{Carries};
ghost use Rattle.lane_end.specs.PlainLane.{HasShuttled};
ghost use Rattle.domain_core.specs.Ends.{EndsMoved};
ghost use Rattle.domain_core.specs.Turned.{MakesTurn};
ghost use Rattle.linked_pair.specs.Links.{IsOpen, new_link};
ghost use Rattle.linked_pair.specs.Pair.{CallsAt, IsMember, IsOpened, domain_of};

mod channels;
mod raw;
mod waits;

use crate::links::{PlainLink, plain_link};
use crate::member::{Member, Which};
use domain_core::{Domain, calls_move_ends, carry, domains_stay_linked};
use lane_end::{LaneFault, PlainRecv, PlainSend};
use mc_base::{Done, EndName, Got, Local, NoMemory, Priority, Refusal, RequestId};
use mc_journal::Journal;
use std::alloc::Global;
use std::marker::Model;

/// A domain whose links stand in one memory.
pub type PlainDomain = Domain<PlainSend, PlainRecv>;

/// Two domains over a link.
///
/// Each call that takes a journal does what the call of the same name does on [`Domain`], on the domain that `which` names,
/// and leaves the other as it is. What one puts comes to the other at the next `carry`.
#[derive(Debug, Drop)]
pub struct LinkedPair {
    one: PlainDomain,
    two: PlainDomain,
}

impl Model for LinkedPair {
    ghost use Rattle.domain_core.specs.Going.{AreLinkedDomains};
    ghost use Rattle.linked_pair.specs.Pair.{Pair};

    ghost Value = { Pair };

    ghost view = { λ p. record { one = p.one; two = p.two } };

    ghost invariant = { λ p. AreLinkedDomains p.one p.two };
}

impl LinkedPair {
    /// Opens two domains of different numbers over a link, whose lanes have `size` buffers each way, 1 to 256. All memory
    /// that the two will need is taken here.
    ///
    /// # Errors
    ///
    /// `Size` where the size is not from 1 to 256, `NoMemory` where an allocation fails.
    pub fn open(alloc: Global, one: Member, two: Member, size: u32) -> Result<LinkedPair, LaneFault>
        requires one { IsMember one }
        requires two { IsMember two }
        requires apart { one.number ≢ two.number }
        ensures size_refused { IsErrOf result LaneFault.Size ↔ (IsLaneSize size → ⊥) }
        ensures one { IfOk result (λ p. IsOpened one two.number size p.one) }
        ensures two { IfOk result (λ p. IsOpened two one.number size p.two) }
    {
        let (there, back) = plain_link(alloc, one.number, two.number, size)?;
        let Ok(first) = open_with(alloc, one, there) else {
            return Err(LaneFault::NoMemory);
        };
        let Ok(second) = open_with(alloc, two, back) else {
            return Err(LaneFault::NoMemory);
        };
        Ok(LinkedPair {
            one: first,
            two: second,
        })
    }

    /// Carries both lanes of the link: what each domain put comes to the other, and the buffers that each gave back come
    /// back. The next turns of the two see it.
    pub fn carry(&mut self)
        ensures carries { Carries HasShuttled self.old.one.state.number self.old.two.state.number self.old.one.ends self.old.two.ends self.new.one.ends self.new.two.ends }
        ensures one { self.new.one ≡ record self.old.one { ends = self.new.one.ends } }
        ensures two { self.new.two ≡ record self.old.two { ends = self.new.two.ends } }
    {
        carry(&mut self.one, &mut self.two);
    }

    /// Lends one of the domains to be read.
    pub fn domain(&self, which: Which) -> &PlainDomain
        ensures { result.now ≡ domain_of which self.now }
    {
        match which {
            Which::One => &self.one,
            Which::Two => &self.two,
        }
    }

    /// Makes an endpoint and returns its address, as [`Domain::create`].
    pub fn create(&mut self, which: Which, journal: &mut Journal, at: Local) -> Result<u32, Refusal>
        requires entry_room { call_entries ≤ journal.old.entry_room }
        requires byte_room { call_bytes ≤ journal.old.byte_room }
        ensures call { CallsAt which at.node (create_at at.port) self.old self.new journal.old.lines journal.new.lines (created result) None }
        ensures entry_room { journal.old.entry_room ≤ journal.new.entry_room + call_entries }
        ensures byte_room { journal.old.byte_room ≤ journal.new.byte_room + call_bytes }
    {
        calls_move_ends();
        domains_stay_linked();
        match which {
            Which::One => self.one.create(journal, at),
            Which::Two => self.two.create(journal, at),
        }
    }

    /// Ends an endpoint and returns how many messages were dropped there, as [`Domain::delete`].
    pub fn delete(&mut self, which: Which, journal: &mut Journal, at: Local) -> Result<u32, Refusal>
        requires entry_room { call_entries ≤ journal.old.entry_room }
        requires byte_room { call_bytes ≤ journal.old.byte_room }
        ensures call { CallsAt which at.node (delete_at at.port) self.old self.new journal.old.lines journal.new.lines (deleted result) None }
        ensures entry_room { journal.old.entry_room ≤ journal.new.entry_room + call_entries }
        ensures byte_room { journal.old.byte_room ≤ journal.new.byte_room + call_bytes }
    {
        calls_move_ends();
        domains_stay_linked();
        match which {
            Which::One => self.one.delete(journal, at),
            Which::Two => self.two.delete(journal, at),
        }
    }

    /// Begins a lookup, as [`Domain::lookup`].
    pub fn lookup(
        &mut self,
        which: Which,
        journal: &mut Journal,
        name: EndName,
    ) -> Result<RequestId, Refusal>
        requires entry_room { call_entries ≤ journal.old.entry_room }
        requires byte_room { call_bytes ≤ journal.old.byte_room }
        ensures call { CallsAt which 0 (lookup_of name) self.old self.new journal.old.lines journal.new.lines (requested result) (given result) }
        ensures entry_room { journal.old.entry_room ≤ journal.new.entry_room + call_entries }
        ensures byte_room { journal.old.byte_room ≤ journal.new.byte_room + call_bytes }
    {
        calls_move_ends();
        domains_stay_linked();
        match which {
            Which::One => self.one.lookup(journal, name),
            Which::Two => self.two.lookup(journal, name),
        }
    }

    /// Makes a turn and returns whether it was idle, as [`Domain::turn`].
    pub fn turn(&mut self, which: Which, journal: &mut Journal) -> bool
        requires entry_room { call_entries ≤ journal.old.entry_room }
        requires byte_room { call_bytes ≤ journal.old.byte_room }
        ensures call { CallsAt which 0 turn_alone self.old self.new journal.old.lines journal.new.lines agrees None }
        ensures turn { MakesTurn (EndsMoved Sends Receives) (domain_of which self.old) (domain_of which self.new) journal.old.lines journal.new.lines result }
        ensures entry_room { journal.old.entry_room ≤ journal.new.entry_room + call_entries }
        ensures byte_room { journal.old.byte_room ≤ journal.new.byte_room + call_bytes }
    {
        calls_move_ends();
        domains_stay_linked();
        match which {
            Which::One => self.one.turn(journal),
            Which::Two => self.two.turn(journal),
        }
    }

    /// Sends a message of at most 8,192 bytes, as [`Domain::msg_send`].
    pub fn msg_send(
        &mut self,
        which: Which,
        journal: &mut Journal,
        from: Local,
        to: EndName,
        priority: Priority,
        bytes: &[u8],
    ) -> Result<(), Refusal>
        requires entry_room { call_entries ≤ journal.old.entry_room }
        requires byte_room { call_bytes ≤ journal.old.byte_room }
        ensures call { CallsAt which from.node (send_from from.port to priority bytes.now) self.old self.new journal.old.lines journal.new.lines (sent result) None }
        ensures entry_room { journal.old.entry_room ≤ journal.new.entry_room + call_entries }
        ensures byte_room { journal.old.byte_room ≤ journal.new.byte_room + call_bytes }
    {
        calls_move_ends();
        domains_stay_linked();
        match which {
            Which::One => self.one.msg_send(journal, from, to, priority, bytes),
            Which::Two => self.two.msg_send(journal, from, to, priority, bytes),
        }
    }

    /// Receives a message, as [`Domain::msg_recv`].
    pub fn msg_recv(
        &mut self,
        which: Which,
        journal: &mut Journal,
        at: Local,
        out: &mut [u8],
    ) -> Result<Got, Refusal>
        requires entry_room { call_entries ≤ journal.old.entry_room }
        requires byte_room { call_bytes ≤ journal.old.byte_room }
        ensures call { CallsAt which at.node (receive_at at.port (length out.old)) self.old self.new journal.old.lines journal.new.lines (received result out.new) None }
        ensures given { IfOk result (λ got. got.given ≤ length out.old) }
        ensures rest { IfOk result (λ got. drop got.given out.new ≡ drop got.given out.old) }
        ensures refused { OnErr result (out.new ≡ out.old) }
        ensures entry_room { journal.old.entry_room ≤ journal.new.entry_room + call_entries }
        ensures byte_room { journal.old.byte_room ≤ journal.new.byte_room + call_bytes }
    {
        calls_move_ends();
        domains_stay_linked();
        match which {
            Which::One => self.one.msg_recv(journal, at, out),
            Which::Two => self.two.msg_recv(journal, at, out),
        }
    }

    /// Begins a receive of at most `max` bytes, as [`Domain::msg_recv_i`].
    pub fn msg_recv_i(
        &mut self,
        which: Which,
        journal: &mut Journal,
        at: Local,
        max: u32,
    ) -> Result<RequestId, Refusal>
        requires entry_room { call_entries ≤ journal.old.entry_room }
        requires byte_room { call_bytes ≤ journal.old.byte_room }
        ensures call { CallsAt which at.node (request_at at.port max) self.old self.new journal.old.lines journal.new.lines (requested result) (given result) }
        ensures entry_room { journal.old.entry_room ≤ journal.new.entry_room + call_entries }
        ensures byte_room { journal.old.byte_room ≤ journal.new.byte_room + call_bytes }
    {
        calls_move_ends();
        domains_stay_linked();
        match which {
            Which::One => self.one.msg_recv_i(journal, at, max),
            Which::Two => self.two.msg_recv_i(journal, at, max),
        }
    }

    /// Counts the messages that wait at an endpoint, as [`Domain::msg_available`].
    pub fn msg_available(
        &mut self,
        which: Which,
        journal: &mut Journal,
        at: Local,
    ) -> Result<u32, Refusal>
        requires entry_room { call_entries ≤ journal.old.entry_room }
        requires byte_room { call_bytes ≤ journal.old.byte_room }
        ensures call { CallsAt which at.node (available_at at.port) self.old self.new journal.old.lines journal.new.lines (available result) None }
        ensures entry_room { journal.old.entry_room ≤ journal.new.entry_room + call_entries }
        ensures byte_room { journal.old.byte_room ≤ journal.new.byte_room + call_bytes }
    {
        calls_move_ends();
        domains_stay_linked();
        match which {
            Which::One => self.one.msg_available(journal, at),
            Which::Two => self.two.msg_available(journal, at),
        }
    }

    /// Ends a request that is complete, as [`Domain::test`]. `out` has at least 8,192 bytes.
    pub fn test(
        &mut self,
        which: Which,
        journal: &mut Journal,
        id: RequestId,
        out: &mut [u8],
    ) -> Result<Done, Refusal>
        requires entry_room { call_entries ≤ journal.old.entry_room }
        requires byte_room { call_bytes ≤ journal.old.byte_room }
        requires out { item_size ≤ length out.old }
        ensures call { CallsAt which 0 (test_of (place_of_id (domain_of which self.old).ids id)) self.old self.new journal.old.lines journal.new.lines (tested result out.new (packet_lent_as (domain_of which self.new))) None }
        ensures message { IfOk result (λ done. GivesTo done out.old out.new) }
        ensures lent { IfOk result (LendsBy (domain_of which self.old) (domain_of which self.new)) }
        ensures refused { OnErr result (out.new ≡ out.old) }
        ensures entry_room { journal.old.entry_room ≤ journal.new.entry_room + call_entries }
        ensures byte_room { journal.old.byte_room ≤ journal.new.byte_room + call_bytes }
    {
        calls_move_ends();
        domains_stay_linked();
        match which {
            Which::One => self.one.test(journal, id, out),
            Which::Two => self.two.test(journal, id, out),
        }
    }

    /// Ends a request that is pending, as [`Domain::cancel`].
    pub fn cancel(
        &mut self,
        which: Which,
        journal: &mut Journal,
        id: RequestId,
    ) -> Result<(), Refusal>
        requires entry_room { call_entries ≤ journal.old.entry_room }
        requires byte_room { call_bytes ≤ journal.old.byte_room }
        ensures call { CallsAt which 0 (cancel_of (place_of_id (domain_of which self.old).ids id)) self.old self.new journal.old.lines journal.new.lines (cancelled result) None }
        ensures entry_room { journal.old.entry_room ≤ journal.new.entry_room + call_entries }
        ensures byte_room { journal.old.byte_room ≤ journal.new.byte_room + call_bytes }
    {
        calls_move_ends();
        domains_stay_linked();
        match which {
            Which::One => self.one.cancel(journal, id),
            Which::Two => self.two.cancel(journal, id),
        }
    }
}

/// Opens a domain with one link.
fn open_with(alloc: Global, member: Member, link: PlainLink) -> Result<PlainDomain, NoMemory>
    requires member { IsMember member }
    requires apart { link.peer ≢ member.number }
    requires peer { link.peer ≤ 7 }
    requires open { IsOpen link }
    ensures opened { (size : ℕ) → link ≡ new_link link.peer size → IfOk result (IsOpened member link.peer size) }
{
    let mut links = Vec::new(alloc);
    if links.push(link).is_err() {
        return Err(NoMemory);
    }
    Domain::open(alloc, member.number, member.nodes, member.pool, links)
}
