//! The calls that send and receive packets and scalars, the items of channels.

ghost use Rattle.std.specs.Prelude.{◌≡◌, ◌≤◌, ◌<◌, ◌+◌, ◌*◌, ◌^◌, ◌↔◌, IfErr, IfOk, IfSome, IsErr, IsNone, None, Some, length, option_and_then, option_map, slice_get};
ghost use Rattle.mc_base.specs.Limits.{item_size};
ghost use Rattle.mc_base.specs.declared.refusal.Refusal.TheVariants.{BufInvalid};
ghost use Rattle.mc_base.specs.Letter.{bytes_of_bits};
ghost use Rattle.board_model.specs.DomainCall.{lend_at, packet_from, packet_request_at, release_of, scalar_at, scalar_from};
ghost use Rattle.domain_parts.specs.Calls.{Calls, IsLent, available, given, lent, requested, sent};
ghost use Rattle.domain_parts.specs.DomainView.{content_by, packet_lent_as, pieces_lent_as, place_of_packet_id};
ghost use Rattle.domain_parts.specs.Ends.{EndsMoved};
ghost use Rattle.domain_parts.specs.Room.{call_bytes, call_entries};

use crate::domain::Domain;
use lane_end::{RecvEnd, SendEnd};
use mc_base::{Bits, Local, PacketId, Refusal, RequestId};
use mc_journal::Journal;

impl<S: SendEnd, R: RecvEnd> Domain<S, R> {
    /// Sends a packet of 0 to 8,192 bytes over the channel of an endpoint: up to 488 bytes in one frame, and more in parts of 484, which
    /// are all put or none. Each takes a buffer of the lane to the receiver's domain.
    ///
    /// # Errors
    ///
    /// - `EndpInvalid`: the endpoint does not exist.
    /// - `NotConnected`: it has no channel, or its connect has no reply yet.
    /// - `ChanDirection`: it is the receiver.
    /// - `ChanType`: the channel carries scalars.
    /// - `ChanClosed`: one of the ends is closed.
    /// - `NotOpen`: one of the ends is not open.
    /// - `PktSize`: the packet has more than 8,192 bytes, or needs more frames than the lane has buffers.
    /// - `NoBuffer`: fewer buffers of the lane are free after the turn than the packet needs frames.
    pub fn pkt_send(
        &mut self,
        journal: &mut Journal,
        at: Local,
        bytes: &[u8],
    ) -> Result<(), Refusal>
        requires entry_room { call_entries ≤ journal.old.entry_room }
        requires byte_room { call_bytes ≤ journal.old.byte_room }
        ensures call { Calls (EndsMoved S.Moved R.Moved) at.node (packet_from at.port bytes.now) self.old self.new journal.old.lines journal.new.lines (sent result) None }
        ensures entry_room { journal.old.entry_room ≤ journal.new.entry_room + call_entries }
        ensures byte_room { journal.old.byte_room ≤ journal.new.byte_room + call_bytes }
    {
        self.inside.take_turn(journal);
        self.inside.put_packet(journal, at, bytes)
    }

    /// Receives the oldest packet that is queued at an endpoint, without a copy: the packet is lent, and keeps its buffer, until
    /// [`release`](Domain::release). It came in one frame or several: [`pkt_pieces`](Domain::pkt_pieces) counts them, and
    /// [`pkt_piece`](Domain::pkt_piece) returns the bytes of each.
    ///
    /// # Errors
    ///
    /// - `EndpInvalid`: the endpoint does not exist.
    /// - `NotConnected`: it has no channel, or it is a sender whose connect has no reply yet.
    /// - `ChanDirection`: it is the sender.
    /// - `ChanType`: the channel carries scalars.
    /// - `ChanClosed`: the end is closed; or it is open, nothing is queued and the sender's end is closed.
    /// - `NotOpen`: the end is not open.
    /// - `Empty`: nothing is queued.
    pub fn pkt_recv(&mut self, journal: &mut Journal, at: Local) -> Result<PacketId, Refusal>
        requires entry_room { call_entries ≤ journal.old.entry_room }
        requires byte_room { call_bytes ≤ journal.old.byte_room }
        ensures call { Calls (EndsMoved S.Moved R.Moved) at.node (lend_at at.port) self.old self.new journal.old.lines journal.new.lines (lent result (packet_lent_as self.new)) None }
        ensures lent { IfOk result (IsLent self.old self.new) }
        ensures entry_room { journal.old.entry_room ≤ journal.new.entry_room + call_entries }
        ensures byte_room { journal.old.byte_room ≤ journal.new.byte_room + call_bytes }
    {
        self.inside.take_turn(journal);
        self.inside.take_packet(at)
    }

    /// Requests a packet at an endpoint. Where one is queued, the request is complete at once with the oldest; otherwise it waits
    /// for the next that comes, and becomes complete with `ChanClosed` where an end is closed before. The packet is lent when
    /// [`test`](Domain::test) or a wait ends the request.
    ///
    /// # Errors
    ///
    /// Those of [`pkt_recv`](Domain::pkt_recv) except `Empty`, and then:
    ///
    /// - `RequestLimit`: 64 requests exist.
    pub fn pkt_recv_i(&mut self, journal: &mut Journal, at: Local) -> Result<RequestId, Refusal>
        requires entry_room { call_entries ≤ journal.old.entry_room }
        requires byte_room { call_bytes ≤ journal.old.byte_room }
        ensures call { Calls (EndsMoved S.Moved R.Moved) at.node (packet_request_at at.port) self.old self.new journal.old.lines journal.new.lines (requested result) (given result) }
        ensures entry_room { journal.old.entry_room ≤ journal.new.entry_room + call_entries }
        ensures byte_room { journal.old.byte_room ≤ journal.new.byte_room + call_bytes }
    {
        self.inside.take_turn(journal);
        self.inside.begin_packet(at)
    }

    /// Returns the bytes of the first piece of a lent packet, without a copy. It makes no turn.
    ///
    /// # Errors
    ///
    /// `BufInvalid` exactly where no lent packet has the id.
    pub fn pkt_bytes(&self, id: PacketId) -> Result<&[u8], Refusal>
        ensures bytes { IfOk result (λ bytes. Some bytes.now ≡ option_and_then (λ ps. slice_get ps 0) (pieces_lent_as self.now id)) }
        ensures refused { IsErr result ↔ IsNone (packet_lent_as self.now id) }
        ensures word { IfErr result (λ word. word ≡ BufInvalid) }
    {
        self.inside.packet_bytes(id)
    }

    /// Returns the number of pieces of a lent packet: one for each frame that brought it, at least one. In order they are the packet's bytes, 0 to
    /// 8,192 in all. It makes no turn.
    ///
    /// # Errors
    ///
    /// `BufInvalid` exactly where no lent packet has the id.
    pub fn pkt_pieces(&self, id: PacketId) -> Result<u32, Refusal>
        ensures count { IfOk result (λ n. Some n ≡ option_map length (pieces_lent_as self.now id)) }
        ensures some { IfOk result (λ n. 0 < n) }
        ensures whole { content_by (pieces_lent_as self.now id) ≡ option_map (λ p. p.item.content) (packet_lent_as self.now id) }
        ensures short { IfSome (packet_lent_as self.now id) (λ p. length p.item.content ≤ item_size) }
        ensures refused { IsErr result ↔ IsNone (packet_lent_as self.now id) }
        ensures word { IfErr result (λ word. word ≡ BufInvalid) }
    {
        self.inside.packet_pieces(id)
    }

    /// Returns the bytes of the n-th piece of a lent packet, counted from 0, without a copy. Where a lent packet has the id, n has to be below the
    /// number of its pieces. It makes no turn.
    ///
    /// # Errors
    ///
    /// `BufInvalid` exactly where no lent packet has the id.
    pub fn pkt_piece(&self, id: PacketId, n: u32) -> Result<&[u8], Refusal>
        requires below { IfSome (pieces_lent_as self.now id) (λ ps. n < length ps) }
        ensures bytes { IfOk result (λ bytes. Some bytes.now ≡ option_and_then (λ ps. slice_get ps n) (pieces_lent_as self.now id)) }
        ensures refused { IsErr result ↔ IsNone (packet_lent_as self.now id) }
        ensures word { IfErr result (λ word. word ≡ BufInvalid) }
    {
        self.inside.packet_piece(id, n)
    }

    /// Releases a lent packet. The buffers of its frames are given back, oldest first.
    ///
    /// # Errors
    ///
    /// - `BufInvalid`: no lent packet has the id.
    pub fn release(&mut self, journal: &mut Journal, id: PacketId) -> Result<(), Refusal>
        requires entry_room { call_entries ≤ journal.old.entry_room }
        requires byte_room { call_bytes ≤ journal.old.byte_room }
        ensures call { Calls (EndsMoved S.Moved R.Moved) 0 (release_of (place_of_packet_id self.old.packets id)) self.old self.new journal.old.lines journal.new.lines (sent result) None }
        ensures entry_room { journal.old.entry_room ≤ journal.new.entry_room + call_entries }
        ensures byte_room { journal.old.byte_room ≤ journal.new.byte_room + call_bytes }
    {
        self.inside.take_turn(journal);
        self.inside.end_packet(id)
    }

    /// Sends a scalar of 8, 16, 32 or 64 bits over the channel of an endpoint. The value has to fit the bits. It travels as 1, 2,
    /// 4 or 8 bytes, the least significant first.
    ///
    /// # Errors
    ///
    /// - `EndpInvalid`: the endpoint does not exist.
    /// - `NotConnected`: it has no channel, or its connect has no reply yet.
    /// - `ChanDirection`: it is the receiver.
    /// - `ChanType`: the channel carries packets.
    /// - `ChanClosed`: one of the ends is closed.
    /// - `NotOpen`: one of the ends is not open.
    /// - `NoBuffer`: no buffer of the lane to the receiver's domain is free after the turn.
    pub fn scl_send(
        &mut self,
        journal: &mut Journal,
        at: Local,
        bits: Bits,
        value: u64,
    ) -> Result<(), Refusal>
        requires fits { value < 2 ^ (8 * bytes_of_bits bits) }
        requires entry_room { call_entries ≤ journal.old.entry_room }
        requires byte_room { call_bytes ≤ journal.old.byte_room }
        ensures call { Calls (EndsMoved S.Moved R.Moved) at.node (scalar_from at.port bits value) self.old self.new journal.old.lines journal.new.lines (sent result) None }
        ensures entry_room { journal.old.entry_room ≤ journal.new.entry_room + call_entries }
        ensures byte_room { journal.old.byte_room ≤ journal.new.byte_room + call_bytes }
    {
        self.inside.take_turn(journal);
        self.inside.put_scalar(journal, at, bits, value)
    }

    /// Receives the oldest scalar that is queued at an endpoint, and returns its value. Its buffer is given back.
    ///
    /// # Errors
    ///
    /// - `EndpInvalid`: the endpoint does not exist.
    /// - `NotConnected`: it has no channel, or it is a sender whose connect has no reply yet.
    /// - `ChanDirection`: it is the sender.
    /// - `ChanType`: the channel carries packets.
    /// - `ChanClosed`: the end is closed; or it is open, nothing is queued and the sender's end is closed.
    /// - `NotOpen`: the end is not open.
    /// - `Empty`: nothing is queued.
    /// - `SclSize`: the oldest scalar has another number of bits. It stays queued.
    pub fn scl_recv(&mut self, journal: &mut Journal, at: Local, bits: Bits) -> Result<u64, Refusal>
        requires entry_room { call_entries ≤ journal.old.entry_room }
        requires byte_room { call_bytes ≤ journal.old.byte_room }
        ensures call { Calls (EndsMoved S.Moved R.Moved) at.node (scalar_at at.port bits) self.old self.new journal.old.lines journal.new.lines (available result) None }
        ensures entry_room { journal.old.entry_room ≤ journal.new.entry_room + call_entries }
        ensures byte_room { journal.old.byte_room ≤ journal.new.byte_room + call_bytes }
    {
        self.inside.take_turn(journal);
        self.inside.take_scalar(at, bits)
    }
}
