//! The calls of a pair on channels.

ghost use Rattle.std.specs.Prelude.{◌≡◌, ◌↔◌, ◌≤◌, ◌<◌, ◌+◌, ◌*◌, ◌^◌, IfErr, IfOk, IfSome, IsErr, IsNone, None, Some, length, option_and_then, option_map, slice_get};
ghost use Rattle.mc_base.specs.Limits.{item_size};
ghost use Rattle.mc_base.specs.declared.channel.Side.TheVariants.{Receiver, Sender};
ghost use Rattle.mc_base.specs.Letter.{bytes_of_bits};
ghost use Rattle.board_model.specs.DomainCall.{connect_from, open_at, close_at, packet_from, lend_at, packet_request_at, release_of, scalar_at, scalar_from};
ghost use Rattle.domain_core.specs.Room.{call_entries, call_bytes};
ghost use Rattle.mc_base.specs.declared.refusal.Refusal.TheVariants.{BufInvalid};
ghost use Rattle.domain_core.specs.Calls.{IsLent, connected, given_by, sent, deleted, available, lent, requested, given};
ghost use Rattle.domain_core.specs.DomainView.{content_by, packet_lent_as, pieces_lent_as, place_of_packet_id};
ghost use Rattle.linked_pair.specs.Pair.{CallsAt, domain_of};

use crate::member::Which;
use crate::pair::LinkedPair;
use domain_core::{calls_move_ends, domains_stay_linked};
use mc_base::{Bits, EndName, Kind, Local, PacketId, Refusal, RequestId};
use mc_journal::Journal;

impl LinkedPair {
    /// Connects an endpoint to another and returns the request and the number of the channel, as [`Domain::connect`].
    pub fn connect(
        &mut self,
        which: Which,
        journal: &mut Journal,
        from: Local,
        to: EndName,
        kind: Kind,
    ) -> Result<(RequestId, u32), Refusal>
        requires entry_room { call_entries ≤ journal.old.entry_room }
        requires byte_room { call_bytes ≤ journal.old.byte_room }
        ensures call { CallsAt which from.node (connect_from from.port to kind) self.old self.new journal.old.lines journal.new.lines (connected result) (given_by result) }
        ensures entry_room { journal.old.entry_room ≤ journal.new.entry_room + call_entries }
        ensures byte_room { journal.old.byte_room ≤ journal.new.byte_room + call_bytes }
    {
        calls_move_ends();
        domains_stay_linked();
        match which {
            Which::One => self.one.connect(journal, from, to, kind),
            Which::Two => self.two.connect(journal, from, to, kind),
        }
    }

    /// Opens the sender's end of a channel, as [`Domain::open_send`].
    pub fn open_send(
        &mut self,
        which: Which,
        journal: &mut Journal,
        at: Local,
        kind: Kind,
    ) -> Result<(), Refusal>
        requires entry_room { call_entries ≤ journal.old.entry_room }
        requires byte_room { call_bytes ≤ journal.old.byte_room }
        ensures call { CallsAt which at.node (open_at at.port Sender kind) self.old self.new journal.old.lines journal.new.lines (sent result) None }
        ensures entry_room { journal.old.entry_room ≤ journal.new.entry_room + call_entries }
        ensures byte_room { journal.old.byte_room ≤ journal.new.byte_room + call_bytes }
    {
        calls_move_ends();
        domains_stay_linked();
        match which {
            Which::One => self.one.open_send(journal, at, kind),
            Which::Two => self.two.open_send(journal, at, kind),
        }
    }

    /// Opens the receiver's end of a channel, as [`Domain::open_recv`].
    pub fn open_recv(
        &mut self,
        which: Which,
        journal: &mut Journal,
        at: Local,
        kind: Kind,
    ) -> Result<(), Refusal>
        requires entry_room { call_entries ≤ journal.old.entry_room }
        requires byte_room { call_bytes ≤ journal.old.byte_room }
        ensures call { CallsAt which at.node (open_at at.port Receiver kind) self.old self.new journal.old.lines journal.new.lines (sent result) None }
        ensures entry_room { journal.old.entry_room ≤ journal.new.entry_room + call_entries }
        ensures byte_room { journal.old.byte_room ≤ journal.new.byte_room + call_bytes }
    {
        calls_move_ends();
        domains_stay_linked();
        match which {
            Which::One => self.one.open_recv(journal, at, kind),
            Which::Two => self.two.open_recv(journal, at, kind),
        }
    }

    /// Sends a packet over a channel, as [`Domain::pkt_send`].
    pub fn pkt_send(
        &mut self,
        which: Which,
        journal: &mut Journal,
        at: Local,
        bytes: &[u8],
    ) -> Result<(), Refusal>
        requires entry_room { call_entries ≤ journal.old.entry_room }
        requires byte_room { call_bytes ≤ journal.old.byte_room }
        ensures call { CallsAt which at.node (packet_from at.port bytes.now) self.old self.new journal.old.lines journal.new.lines (sent result) None }
        ensures entry_room { journal.old.entry_room ≤ journal.new.entry_room + call_entries }
        ensures byte_room { journal.old.byte_room ≤ journal.new.byte_room + call_bytes }
    {
        calls_move_ends();
        domains_stay_linked();
        match which {
            Which::One => self.one.pkt_send(journal, at, bytes),
            Which::Two => self.two.pkt_send(journal, at, bytes),
        }
    }

    /// Receives the oldest packet that is queued, which is lent from now on, as [`Domain::pkt_recv`].
    pub fn pkt_recv(
        &mut self,
        which: Which,
        journal: &mut Journal,
        at: Local,
    ) -> Result<PacketId, Refusal>
        requires entry_room { call_entries ≤ journal.old.entry_room }
        requires byte_room { call_bytes ≤ journal.old.byte_room }
        ensures call { CallsAt which at.node (lend_at at.port) self.old self.new journal.old.lines journal.new.lines (lent result (packet_lent_as (domain_of which self.new))) None }
        ensures lent { IfOk result (IsLent (domain_of which self.old) (domain_of which self.new)) }
        ensures entry_room { journal.old.entry_room ≤ journal.new.entry_room + call_entries }
        ensures byte_room { journal.old.byte_room ≤ journal.new.byte_room + call_bytes }
    {
        calls_move_ends();
        domains_stay_linked();
        match which {
            Which::One => self.one.pkt_recv(journal, at),
            Which::Two => self.two.pkt_recv(journal, at),
        }
    }

    /// Begins a receive of a packet, as [`Domain::pkt_recv_i`].
    pub fn pkt_recv_i(
        &mut self,
        which: Which,
        journal: &mut Journal,
        at: Local,
    ) -> Result<RequestId, Refusal>
        requires entry_room { call_entries ≤ journal.old.entry_room }
        requires byte_room { call_bytes ≤ journal.old.byte_room }
        ensures call { CallsAt which at.node (packet_request_at at.port) self.old self.new journal.old.lines journal.new.lines (requested result) (given result) }
        ensures entry_room { journal.old.entry_room ≤ journal.new.entry_room + call_entries }
        ensures byte_room { journal.old.byte_room ≤ journal.new.byte_room + call_bytes }
    {
        calls_move_ends();
        domains_stay_linked();
        match which {
            Which::One => self.one.pkt_recv_i(journal, at),
            Which::Two => self.two.pkt_recv_i(journal, at),
        }
    }

    /// The bytes of the first piece of a lent packet, as [`Domain::pkt_bytes`].
    pub fn pkt_bytes(&self, which: Which, id: PacketId) -> Result<&[u8], Refusal>
        ensures bytes { IfOk result (λ bytes. Some bytes.now ≡ option_and_then (λ ps. slice_get ps 0) (pieces_lent_as (domain_of which self.now) id)) }
        ensures refused { IsErr result ↔ IsNone (packet_lent_as (domain_of which self.now) id) }
        ensures word { IfErr result (λ word. word ≡ BufInvalid) }
    {
        match which {
            Which::One => self.one.pkt_bytes(id),
            Which::Two => self.two.pkt_bytes(id),
        }
    }

    /// The number of pieces of a lent packet, as [`Domain::pkt_pieces`].
    pub fn pkt_pieces(&self, which: Which, id: PacketId) -> Result<u32, Refusal>
        ensures count { IfOk result (λ n. Some n ≡ option_map length (pieces_lent_as (domain_of which self.now) id)) }
        ensures some { IfOk result (λ n. 0 < n) }
        ensures whole { content_by (pieces_lent_as (domain_of which self.now) id) ≡ option_map (λ p. p.item.content) (packet_lent_as (domain_of which self.now) id) }
        ensures short { IfSome (packet_lent_as (domain_of which self.now) id) (λ p. length p.item.content ≤ item_size) }
        ensures refused { IsErr result ↔ IsNone (packet_lent_as (domain_of which self.now) id) }
        ensures word { IfErr result (λ word. word ≡ BufInvalid) }
    {
        match which {
            Which::One => self.one.pkt_pieces(id),
            Which::Two => self.two.pkt_pieces(id),
        }
    }

    /// The bytes of the n-th piece of a lent packet, counted from 0, as [`Domain::pkt_piece`].
    pub fn pkt_piece(&self, which: Which, id: PacketId, n: u32) -> Result<&[u8], Refusal>
        requires below { IfSome (pieces_lent_as (domain_of which self.now) id) (λ ps. n < length ps) }
        ensures bytes { IfOk result (λ bytes. Some bytes.now ≡ option_and_then (λ ps. slice_get ps n) (pieces_lent_as (domain_of which self.now) id)) }
        ensures refused { IsErr result ↔ IsNone (packet_lent_as (domain_of which self.now) id) }
        ensures word { IfErr result (λ word. word ≡ BufInvalid) }
    {
        match which {
            Which::One => self.one.pkt_piece(id, n),
            Which::Two => self.two.pkt_piece(id, n),
        }
    }

    /// Releases a lent packet, as [`Domain::release`].
    pub fn release(
        &mut self,
        which: Which,
        journal: &mut Journal,
        id: PacketId,
    ) -> Result<(), Refusal>
        requires entry_room { call_entries ≤ journal.old.entry_room }
        requires byte_room { call_bytes ≤ journal.old.byte_room }
        ensures call { CallsAt which 0 (release_of (place_of_packet_id (domain_of which self.old).packets id)) self.old self.new journal.old.lines journal.new.lines (sent result) None }
        ensures entry_room { journal.old.entry_room ≤ journal.new.entry_room + call_entries }
        ensures byte_room { journal.old.byte_room ≤ journal.new.byte_room + call_bytes }
    {
        calls_move_ends();
        domains_stay_linked();
        match which {
            Which::One => self.one.release(journal, id),
            Which::Two => self.two.release(journal, id),
        }
    }

    /// Sends a scalar over a channel, as [`Domain::scl_send`].
    pub fn scl_send(
        &mut self,
        which: Which,
        journal: &mut Journal,
        at: Local,
        bits: Bits,
        value: u64,
    ) -> Result<(), Refusal>
        requires fits { value < 2 ^ (8 * bytes_of_bits bits) }
        requires entry_room { call_entries ≤ journal.old.entry_room }
        requires byte_room { call_bytes ≤ journal.old.byte_room }
        ensures call { CallsAt which at.node (scalar_from at.port bits value) self.old self.new journal.old.lines journal.new.lines (sent result) None }
        ensures entry_room { journal.old.entry_room ≤ journal.new.entry_room + call_entries }
        ensures byte_room { journal.old.byte_room ≤ journal.new.byte_room + call_bytes }
    {
        calls_move_ends();
        domains_stay_linked();
        match which {
            Which::One => self.one.scl_send(journal, at, bits, value),
            Which::Two => self.two.scl_send(journal, at, bits, value),
        }
    }

    /// Receives the oldest scalar that is queued, as [`Domain::scl_recv`].
    pub fn scl_recv(
        &mut self,
        which: Which,
        journal: &mut Journal,
        at: Local,
        bits: Bits,
    ) -> Result<u64, Refusal>
        requires entry_room { call_entries ≤ journal.old.entry_room }
        requires byte_room { call_bytes ≤ journal.old.byte_room }
        ensures call { CallsAt which at.node (scalar_at at.port bits) self.old self.new journal.old.lines journal.new.lines (available result) None }
        ensures entry_room { journal.old.entry_room ≤ journal.new.entry_room + call_entries }
        ensures byte_room { journal.old.byte_room ≤ journal.new.byte_room + call_bytes }
    {
        calls_move_ends();
        domains_stay_linked();
        match which {
            Which::One => self.one.scl_recv(journal, at, bits),
            Which::Two => self.two.scl_recv(journal, at, bits),
        }
    }

    /// Closes the sender's end of a channel, as [`Domain::close_send`].
    pub fn close_send(
        &mut self,
        which: Which,
        journal: &mut Journal,
        at: Local,
    ) -> Result<(), Refusal>
        requires entry_room { call_entries ≤ journal.old.entry_room }
        requires byte_room { call_bytes ≤ journal.old.byte_room }
        ensures call { CallsAt which at.node (close_at at.port Sender) self.old self.new journal.old.lines journal.new.lines (sent result) None }
        ensures entry_room { journal.old.entry_room ≤ journal.new.entry_room + call_entries }
        ensures byte_room { journal.old.byte_room ≤ journal.new.byte_room + call_bytes }
    {
        calls_move_ends();
        domains_stay_linked();
        match which {
            Which::One => self.one.close_send(journal, at),
            Which::Two => self.two.close_send(journal, at),
        }
    }

    /// Closes the receiver's end of a channel and returns how many items were dropped there, as [`Domain::close_recv`].
    pub fn close_recv(
        &mut self,
        which: Which,
        journal: &mut Journal,
        at: Local,
    ) -> Result<u32, Refusal>
        requires entry_room { call_entries ≤ journal.old.entry_room }
        requires byte_room { call_bytes ≤ journal.old.byte_room }
        ensures call { CallsAt which at.node (close_at at.port Receiver) self.old self.new journal.old.lines journal.new.lines (deleted result) None }
        ensures entry_room { journal.old.entry_room ≤ journal.new.entry_room + call_entries }
        ensures byte_room { journal.old.byte_room ≤ journal.new.byte_room + call_bytes }
    {
        calls_move_ends();
        domains_stay_linked();
        match which {
            Which::One => self.one.close_recv(journal, at),
            Which::Two => self.two.close_recv(journal, at),
        }
    }
}
