//! A domain, and its calls.

ghost use Rattle.std.specs.Prelude.{◌≡◌, ◌≤◌, ◌+◌, IfOk, IfSome, IsNone, OnErr, ◌↔◌, None, Contains, length, drop, map, is_some, sum_by};
ghost use Rattle.mc_base.specs.Limits.{item_size};
ghost use Rattle.board_model.specs.DomainCall.{create_at, delete_at, lookup_of, turn_alone, send_from, receive_at, request_at, available_at, test_of, cancel_of};
ghost use Rattle.board_model.specs.Journal.{agrees};
ghost use Rattle.board_model.specs.State.{lent_from, queued_from, place_of_peer};
ghost use Rattle.domain_parts.specs.Ends.{EndsMoved};
ghost use Rattle.board_model.specs.Queues.{messages_at};
ghost use Rattle.domain_parts.specs.Room.{call_entries, call_bytes};
ghost use Rattle.domain_parts.specs.DomainView.{packet_lent_as, place_of_id};
ghost use Rattle.domain_parts.specs.Turned.{MakesTurn};
ghost use Rattle.domain_parts.specs.Calls.{Calls, GivesTo, LendsBy, created, deleted, sent, received, requested, given, available, tested, cancelled};

mod channels;
mod data;
mod opening;
mod raw;
mod waits;

use domain_parts::{Ends, Holdings, LinkRoom, Places};
use lane_end::{RecvEnd, SendEnd};
use mc_base::{Done, EndName, Got, Local, Priority, Refusal, RequestId};
use mc_journal::Journal;
pub use opening::carry;
use std::marker::Model;

/// A domain: what one core of a board runs.
///
/// Each call with a journal first makes one turn, as [`turn`](Domain::turn) does, and records it together with the frame that the
/// call itself sends. The journal needs room for `CALL_ENTRIES` entries of `CALL_BYTES` bytes together (`Journal::reserve`), and
/// no call uses more. [`wait`](Domain::wait) and [`wait_any`](Domain::wait_any) make as many turns as they need, and the room for
/// each.
///
/// Each list of errors is in the order in which they are tested: the first that applies is returned. A refused call changes nothing
/// after its turn, so it can be made again. What another domain did counts here from the turn that takes its frame.
///
/// A frame begins with `struct rpmsg_hdr` of Linux, and an announcement is a `struct rpmsg_ns_msg` to address 53; docs/FORMATS.md
/// has both and the header of the payloads. A domain has at most 64 endpoints and 64 requests at a time.
#[derive(Debug, Drop)]
pub struct Domain<S: SendEnd, R: RecvEnd> {
    inside: Holdings<Ends<S, R>>,
    room: LinkRoom<S, R>,
}

impl<S: SendEnd, R: RecvEnd> Model for Domain<S, R> {
    ghost use Rattle.domain_parts.specs.declared.ends.Ends.{Ends};
    ghost use Rattle.domain_parts.specs.DomainView.{DomainView};
    ghost use Rattle.domain_parts.specs.Parts.{shown};

    ghost Value = { DomainView (Ends S R) };

    ghost view = { λ d. shown d.inside };
}

impl<S: SendEnd, R: RecvEnd> Domain<S, R> {
    /// Creates an endpoint and returns its address: 1024 plus the number of endpoints that were created before, 1024 to 61,023.
    /// Pending lookups of it become complete here, and later turns announce it to each linked domain.
    ///
    /// # Errors
    ///
    /// - `NodeInvalid`: the domain has no such node.
    /// - `ExistsAlready`: the endpoint exists.
    /// - `EndpLimit`: 64 endpoint records are in use. A record is in use from the creation until the endpoint is deleted and each
    ///   linked domain has been sent the announcement of its end.
    /// - `AddressSpent`: 60,000 endpoints were created.
    pub fn create(&mut self, journal: &mut Journal, at: Local) -> Result<u32, Refusal>
        requires entry_room { call_entries ≤ journal.old.entry_room }
        requires byte_room { call_bytes ≤ journal.old.byte_room }
        ensures call { Calls (EndsMoved S.Moved R.Moved) at.node (create_at at.port) self.old self.new journal.old.lines journal.new.lines (created result) None }
        ensures entry_room { journal.old.entry_room ≤ journal.new.entry_room + call_entries }
        ensures byte_room { journal.old.byte_room ≤ journal.new.byte_room + call_bytes }
    {
        self.inside.take_turn(journal);
        self.inside.add_endpoint(at)
    }

    /// Deletes an endpoint, drops the messages that are queued there, and returns how many these were. Their buffers are given
    /// back, the oldest first. Receives that wait there become complete with `EndpInvalid`; a complete receive keeps its message.
    /// Later turns announce the end to each linked domain.
    ///
    /// # Errors
    ///
    /// - `EndpInvalid`: the endpoint does not exist.
    /// - `ChanConnected`: it has a channel.
    pub fn delete(&mut self, journal: &mut Journal, at: Local) -> Result<u32, Refusal>
        requires entry_room { call_entries ≤ journal.old.entry_room }
        requires byte_room { call_bytes ≤ journal.old.byte_room }
        ensures call { Calls (EndsMoved S.Moved R.Moved) at.node (delete_at at.port) self.old self.new journal.old.lines journal.new.lines (deleted result) None }
        ensures entry_room { journal.old.entry_room ≤ journal.new.entry_room + call_entries }
        ensures byte_room { journal.old.byte_room ≤ journal.new.byte_room + call_bytes }
    {
        self.inside.take_turn(journal);
        self.inside.remove_endpoint(at)
    }

    /// Requests the address of an endpoint. The request is complete at once where the endpoint exists in this domain or is known
    /// from a linked one, and otherwise when it is created or its announcement is taken. [`test`](Domain::test) and the waits end
    /// the request.
    ///
    /// # Errors
    ///
    /// - `RequestLimit`: 64 requests exist.
    pub fn lookup(&mut self, journal: &mut Journal, name: EndName) -> Result<RequestId, Refusal>
        requires entry_room { call_entries ≤ journal.old.entry_room }
        requires byte_room { call_bytes ≤ journal.old.byte_room }
        ensures call { Calls (EndsMoved S.Moved R.Moved) 0 (lookup_of name) self.old self.new journal.old.lines journal.new.lines (requested result) (given result) }
        ensures entry_room { journal.old.entry_room ≤ journal.new.entry_room + call_entries }
        ensures byte_room { journal.old.byte_room ≤ journal.new.byte_room + call_bytes }
    {
        self.inside.take_turn(journal);
        self.inside.begin_lookup(name)
    }

    /// Makes one turn and no call, and returns whether it was idle: no look showed anything and nothing was sent.
    ///
    /// A turn visits each peer in rising number, the domain itself among them. It looks for buffers that came back, sends up to 8
    /// announcements and replies that are owed while a buffer is free, looks for frames that came, and takes up to 8 of them
    /// (docs/PROFILE.md, "A turn").
    pub fn turn(&mut self, journal: &mut Journal) -> bool
        requires entry_room { call_entries ≤ journal.old.entry_room }
        requires byte_room { call_bytes ≤ journal.old.byte_room }
        ensures call { Calls (EndsMoved S.Moved R.Moved) 0 turn_alone self.old self.new journal.old.lines journal.new.lines agrees None }
        ensures turn { MakesTurn (EndsMoved S.Moved R.Moved) self.old self.new journal.old.lines journal.new.lines result }
        ensures entry_room { journal.old.entry_room ≤ journal.new.entry_room + call_entries }
        ensures byte_room { journal.old.byte_room ≤ journal.new.byte_room + call_bytes }
    {
        self.inside.take_turn(journal)
    }

    /// Sends a message of 0 to 8,192 bytes to the named endpoint: up to 488 bytes in one frame, and more in parts of 484, which are
    /// all put or none. Each takes a buffer of the lane to its domain. Its receiver takes messages of a better priority first; 0 is the
    /// best.
    ///
    /// # Errors
    ///
    /// - `EndpInvalid`: the endpoint `from` does not exist.
    /// - `OnChannel`: it has a channel.
    /// - `PeerInvalid`: the endpoint `to` neither exists in this domain nor is known from a linked one.
    /// - `MsgSize`: the message has more than 8,192 bytes, or needs more frames than the lane has buffers.
    /// - `NoBuffer`: fewer buffers of the lane are free after the turn than the message needs frames.
    pub fn msg_send(
        &mut self,
        journal: &mut Journal,
        from: Local,
        to: EndName,
        priority: Priority,
        bytes: &[u8],
    ) -> Result<(), Refusal>
        requires entry_room { call_entries ≤ journal.old.entry_room }
        requires byte_room { call_bytes ≤ journal.old.byte_room }
        ensures call { Calls (EndsMoved S.Moved R.Moved) from.node (send_from from.port to priority bytes.now) self.old self.new journal.old.lines journal.new.lines (sent result) None }
        ensures entry_room { journal.old.entry_room ≤ journal.new.entry_room + call_entries }
        ensures byte_room { journal.old.byte_room ≤ journal.new.byte_room + call_bytes }
    {
        self.inside.take_turn(journal); // Buffers that came back are free from here on.
        self.inside.put_message(journal, from, to, priority, bytes)
    }

    /// Receives the oldest message of the best priority that is queued. Its first bytes, as many as fit, are copied to `out`, and
    /// the rest of `out` stays as it is. The message is taken whole, and its buffer is given back.
    ///
    /// # Errors
    ///
    /// `out` stays as it is.
    ///
    /// - `EndpInvalid`: the endpoint does not exist.
    /// - `OnChannel`: it has a channel.
    /// - `Empty`: no message is queued.
    pub fn msg_recv(
        &mut self,
        journal: &mut Journal,
        at: Local,
        out: &mut [u8],
    ) -> Result<Got, Refusal>
        requires entry_room { call_entries ≤ journal.old.entry_room }
        requires byte_room { call_bytes ≤ journal.old.byte_room }
        ensures call { Calls (EndsMoved S.Moved R.Moved) at.node (receive_at at.port (length out.old)) self.old self.new journal.old.lines journal.new.lines (received result out.new) None }
        ensures given { IfOk result (λ got. got.given ≤ length out.old) }
        ensures rest { IfOk result (λ got. drop got.given out.new ≡ drop got.given out.old) }
        ensures refused { OnErr result (out.new ≡ out.old) }
        ensures entry_room { journal.old.entry_room ≤ journal.new.entry_room + call_entries }
        ensures byte_room { journal.old.byte_room ≤ journal.new.byte_room + call_bytes }
    {
        self.inside.take_turn(journal);
        self.inside.take_message(at, out)
    }

    /// Requests a message, of which at most the first `max` bytes will be returned. Where one is queued, the request is complete at
    /// once with the oldest of the best priority; otherwise it waits for the next that comes. A complete request keeps the
    /// message's buffer until [`test`](Domain::test) or a wait ends it.
    ///
    /// # Errors
    ///
    /// - `EndpInvalid`: the endpoint does not exist.
    /// - `OnChannel`: it has a channel.
    /// - `RequestLimit`: 64 requests exist.
    pub fn msg_recv_i(
        &mut self,
        journal: &mut Journal,
        at: Local,
        max: u32,
    ) -> Result<RequestId, Refusal>
        requires entry_room { call_entries ≤ journal.old.entry_room }
        requires byte_room { call_bytes ≤ journal.old.byte_room }
        ensures call { Calls (EndsMoved S.Moved R.Moved) at.node (request_at at.port max) self.old self.new journal.old.lines journal.new.lines (requested result) (given result) }
        ensures entry_room { journal.old.entry_room ≤ journal.new.entry_room + call_entries }
        ensures byte_room { journal.old.byte_room ≤ journal.new.byte_room + call_bytes }
    {
        self.inside.take_turn(journal);
        self.inside.begin_receive(at, max)
    }

    /// Returns the number of messages that are queued at an endpoint.
    ///
    /// # Errors
    ///
    /// - `EndpInvalid`: the endpoint does not exist.
    /// - `OnChannel`: it has a channel.
    pub fn msg_available(&mut self, journal: &mut Journal, at: Local) -> Result<u32, Refusal>
        requires entry_room { call_entries ≤ journal.old.entry_room }
        requires byte_room { call_bytes ≤ journal.old.byte_room }
        ensures call { Calls (EndsMoved S.Moved R.Moved) at.node (available_at at.port) self.old self.new journal.old.lines journal.new.lines (available result) None }
        ensures entry_room { journal.old.entry_room ≤ journal.new.entry_room + call_entries }
        ensures byte_room { journal.old.byte_room ≤ journal.new.byte_room + call_bytes }
    {
        self.inside.take_turn(journal);
        self.inside.count_messages(at)
    }

    /// Ends a complete request and returns its result: the address of a lookup, whether a connect was accepted, a message, a
    /// packet, or the refusal with which a receive ended.
    ///
    /// The first bytes of a message, as many as the request asked for, are copied to `out`, which has at least 8,192 bytes; the rest
    /// of `out` stays as it is. The message's buffers are given back. A packet is lent until [`release`](Domain::release).
    ///
    /// # Errors
    ///
    /// `out` stays as it is.
    ///
    /// - `RequestInvalid`: no request has the id.
    /// - `Pending`: the request is not complete.
    pub fn test(
        &mut self,
        journal: &mut Journal,
        id: RequestId,
        out: &mut [u8],
    ) -> Result<Done, Refusal>
        requires entry_room { call_entries ≤ journal.old.entry_room }
        requires byte_room { call_bytes ≤ journal.old.byte_room }
        requires out { item_size ≤ length out.old }
        ensures call { Calls (EndsMoved S.Moved R.Moved) 0 (test_of (place_of_id self.old.ids id)) self.old self.new journal.old.lines journal.new.lines (tested result out.new (packet_lent_as self.new)) None }
        ensures message { IfOk result (λ done. GivesTo done out.old out.new) }
        ensures lent { IfOk result (LendsBy self.old self.new) }
        ensures refused { OnErr result (out.new ≡ out.old) }
        ensures entry_room { journal.old.entry_room ≤ journal.new.entry_room + call_entries }
        ensures byte_room { journal.old.byte_room ≤ journal.new.byte_room + call_bytes }
    {
        self.inside.take_turn(journal);
        self.inside.end_request(id, out)
    }

    /// Ends a pending request, which takes nothing. The channel of a cancelled connect goes on.
    ///
    /// # Errors
    ///
    /// - `RequestInvalid`: no request has the id.
    /// - `TooLate`: the request is complete.
    pub fn cancel(&mut self, journal: &mut Journal, id: RequestId) -> Result<(), Refusal>
        requires entry_room { call_entries ≤ journal.old.entry_room }
        requires byte_room { call_bytes ≤ journal.old.byte_room }
        ensures call { Calls (EndsMoved S.Moved R.Moved) 0 (cancel_of (place_of_id self.old.ids id)) self.old self.new journal.old.lines journal.new.lines (cancelled result) None }
        ensures entry_room { journal.old.entry_room ≤ journal.new.entry_room + call_entries }
        ensures byte_room { journal.old.byte_room ≤ journal.new.byte_room + call_bytes }
    {
        self.inside.take_turn(journal);
        self.inside.end_pending(id)
    }

    /// Returns whether there is a lane to a domain: it is this one, or linked to it.
    pub fn has_peer(&self, number: u8) -> bool
        ensures { result ≡ is_some (place_of_peer self.now.state number) }
    {
        self.inside.has_peer(number)
    }

    /// Counts the buffers of the lane from a peer that are in queues and those that are lent, or returns `None` where there is no
    /// such lane. A message or packet that a complete request holds counts as lent.
    pub fn places(&self, peer: u8) -> Option<Places>
        ensures none { IsNone result ↔ (Contains (map (λ p. p.number) self.now.state.peers) peer → ⊥) }
        ensures queue { IfSome result (λ p. p.queue ≡ queued_from peer self.now.state) }
        ensures lent { IfSome result (λ p. p.lent ≡ lent_from peer self.now.state) }
    {
        self.inside.places(peer)
    }

    /// Returns the number of messages that are queued on all endpoints. The items of channels are not counted.
    pub fn messages_queued(&self) -> u32
        ensures { result ≡ sum_by messages_at self.now.state.endpoints }
    {
        self.inside.messages_queued()
    }
}
