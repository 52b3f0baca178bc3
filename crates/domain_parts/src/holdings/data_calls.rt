//! The calls that send and receive items on channels, after their turns.

ghost use Rattle.std.specs.Prelude.{[], ◌∷◌, ◌≡◌, ◌≤◌, ◌<◌, ◌+◌, ◌*◌, ◌^◌, ◌↔◌, map, false, true, nat_le, None, Some, IfErr, IfOk, IfSome, IsErr, IsNone, length, min, option_and_then, option_map, slice_get, take};
ghost use Rattle.mc_base.specs.Letter.{bytes_of_bits};
ghost use Rattle.mc_base.specs.Limits.{request_limit, item_size};
ghost use Rattle.mc_base.specs.declared.refusal.Refusal.TheVariants.{BufInvalid};
ghost use Rattle.board_model.specs.Answer.{puts};
ghost use Rattle.board_model.specs.Choice.{oldest};
ghost use Rattle.board_model.specs.DomainCall.{lend_at, packet_from, packet_request_at, release_of, scalar_at, scalar_from};
ghost use Rattle.board_model.specs.Journal.{noted_all};
ghost use Rattle.board_model.specs.Serial.{put_entry};
ghost use Rattle.board_model.specs.State.{place_at, queue_at};
ghost use Rattle.domain_parts.specs.Calls.{IsLent, available, given, lent, requested, sent};
ghost use Rattle.domain_parts.specs.CallSteps.{Acts, Succeeds};
ghost use Rattle.domain_parts.specs.DomainView.{content_by, packet_lent_as, pieces_lent_as, place_of_packet_id};
ghost use Rattle.domain_parts.specs.Parts.{shown, state_of};
ghost use Rattle.domain_parts.specs.Records.{slots_at};
ghost use Rattle.domain_parts.specs.Room.{item_bytes, item_entries};
ghost use Rattle.domain_parts.specs.Steps.{Did, next_lent, oldest_lent};
ghost use Rattle.mc_base.specs.declared.request.Slot.{Slot};

use crate::holdings::Holdings;
use crate::messages::give;
use crate::outgoing::Outgoing;
use crate::parts::Carrier;
use crate::peer_lane::PeerLane;
use crate::peers::give_back_lent;
use mc_base::{Bits, Got, Kind, Letter, Local, PacketId, Refusal, RequestId};
use mc_journal::Journal;
use request_set::{Ask, Complete};
use scalar_channel::read_scalar;

impl<P: PeerLane> Holdings<P> {
    /// `pkt_send` after its turn.
    pub fn put_packet(
        &mut self,
        journal: &mut Journal,
        at: Local,
        bytes: &[u8],
    ) -> Result<(), Refusal>
        requires entry_room { item_entries ≤ journal.old.entry_room }
        requires byte_room { item_bytes ≤ journal.old.byte_room }
        ensures acts { Acts P.Moved at.node (packet_from at.port bytes.now) self.old self.new (sent result) None }
        ensures told { journal.new.lines ≡ noted_all journal.old.lines (map put_entry (puts (state_of self.old.parts) at.node (packet_from at.port bytes.now))) }
        ensures entry_room { journal.old.entry_room ≤ journal.new.entry_room + item_entries }
        ensures byte_room { journal.old.byte_room ≤ journal.new.byte_room + item_bytes }
    {
        let Some(place) = self.place_at(at) else {
            return Err(Refusal::EndpInvalid);
        };
        let Some(channel) = self.channel_at(at, place) else {
            return Err(Refusal::NotConnected);
        };
        channel.may_send(Kind::Packet)?;
        let item = Outgoing {
            peer: channel.peer,
            source: self.address_at(at, place),
            destination: channel.peer_addr,
            carrier: Carrier::Packet(channel.number),
            bytes,
        };
        if self.is_too_long(&item) {
            return Err(Refusal::PktSize);
        }
        self.put_item(journal, &item)
    }

    /// `scl_send` after its turn.
    pub fn put_scalar(
        &mut self,
        journal: &mut Journal,
        at: Local,
        bits: Bits,
        value: u64,
    ) -> Result<(), Refusal>
        requires fits { value < 2 ^ (8 * bytes_of_bits bits) }
        requires entry_room { 1 ≤ journal.old.entry_room }
        requires byte_room { 512 ≤ journal.old.byte_room }
        ensures acts { Acts P.Moved at.node (scalar_from at.port bits value) self.old self.new (sent result) None }
        ensures told { journal.new.lines ≡ noted_all journal.old.lines (map put_entry (puts (state_of self.old.parts) at.node (scalar_from at.port bits value))) }
        ensures entry_room { journal.old.entry_room ≤ journal.new.entry_room + 1 }
        ensures byte_room { journal.old.byte_room ≤ journal.new.byte_room + 512 }
    {
        let Some(place) = self.place_at(at) else {
            return Err(Refusal::EndpInvalid);
        };
        let Some(channel) = self.channel_at(at, place) else {
            return Err(Refusal::NotConnected);
        };
        channel.may_send(Kind::Scalar)?;
        if self.free_to(channel.peer) == 0 {
            return Err(Refusal::NoBuffer);
        }
        let source = self.address_at(at, place);
        let letter = Letter::Scalar {
            channel: channel.number,
            bits,
            value,
        };
        self.put_letter(journal, channel.peer, source, channel.peer_addr, &letter);
        Ok(())
    }

    /// `scl_recv` after its turn.
    pub fn take_scalar(&mut self, at: Local, bits: Bits) -> Result<u64, Refusal>
        ensures { Acts P.Moved at.node (scalar_at at.port bits) self.old self.new (available result) None }
    {
        let Some(place) = self.place_at(at) else {
            return Err(Refusal::EndpInvalid);
        };
        let Some(channel) = self.channel_at(at, place) else {
            return Err(Refusal::NotConnected);
        };
        channel.may_recv(Kind::Scalar, self.count_at(at, place))?;
        let mut bytes = [0; 8];
        let Some(got) = self.front(at, place, &mut bytes) else {
            return Err(Refusal::Empty);
        };
        if got.size > 8 {
            return Err(Refusal::SclSize);
        }
        let Ok(value) = read_scalar(bits, &bytes[..got.given as usize]) else {
            return Err(Refusal::SclSize);
        };
        self.drop_oldest(place);
        Ok(value)
    }

    /// `pkt_recv` after its turn.
    pub fn take_packet(&mut self, at: Local) -> Result<PacketId, Refusal>
        ensures acts { Acts P.Moved at.node (lend_at at.port) self.old self.new (lent result (packet_lent_as (shown self.new))) None }
        ensures lent { IfOk result (IsLent (shown self.old) (shown self.new)) }
    {
        let Some(place) = self.place_at(at) else {
            return Err(Refusal::EndpInvalid);
        };
        let Some(channel) = self.channel_at(at, place) else {
            return Err(Refusal::NotConnected);
        };
        channel.may_recv(Kind::Packet, self.count_at(at, place))?;
        if self.count_at(at, place) == 0 {
            return Err(Refusal::Empty);
        }
        Ok(self.lend_oldest(place))
    }

    /// Lends the oldest packet that is queued at a place.
    fn lend_oldest(&mut self, place: usize) -> PacketId
        requires waits { 0 < length (slots_at self.old.parts.records place) }
        ensures did { (s : Slot) × (slots_at self.old.parts.records place ≡ s ∷ slots_at self.new.parts.records place) × (result ≡ next_lent self.old.parts.book s) × Did P.Moved (oldest_lent place result ∷ []) self.old self.new }
    {
        let slot = self.endpoints.take_oldest(place).unwrap();
        let packet = self.book.lend(slot);
        self.endpoints.keep_lent(packet);
        packet
    }

    /// `pkt_recv_i` after its turn.
    pub fn begin_packet(&mut self, at: Local) -> Result<RequestId, Refusal>
        ensures { Acts P.Moved at.node (packet_request_at at.port) self.old self.new (requested result) (given result) }
    {
        let Some(place) = self.place_at(at) else {
            return Err(Refusal::EndpInvalid);
        };
        let Some(channel) = self.channel_at(at, place) else {
            return Err(Refusal::NotConnected);
        };
        channel.may_recv(Kind::Packet, self.count_at(at, place))?;
        let Some(id) = self.begin_packet_at(at, place) else {
            return Err(Refusal::RequestLimit);
        };
        Ok(id)
    }

    /// Begins a receive of a packet at an endpoint, with the oldest where one is queued, or returns `None` where 64 requests exist.
    fn begin_packet_at(&mut self, at: Local, place: usize) -> Option<RequestId>
        requires there { place_at (state_of self.old.parts) at ≡ Some place }
        requires within { place < length self.old.parts.records.endpoints }
        ensures none { IsNone result → nat_le request_limit (length (state_of self.old.parts).requests) ≡ true }
        ensures stays { IsNone result → self.new ≡ self.old }
        ensures some { IfSome result (λ id. nat_le request_limit (length (state_of self.old.parts).requests) ≡ false) }
        ensures serial { IfSome result (λ id. id.serial ≡ (state_of self.old.parts).requests_given) }
        ensures succeeds { IfSome result (λ id. Succeeds P.Moved at.node (packet_request_at at.port) self.old self.new (Some id)) }
    {
        let Ok(id) = self.requests.add(Ask::Packet(at)) else {
            return None;
        };
        if let Some(slot) = self.endpoints.take_oldest(place) {
            self.requests.complete(id, Complete::Packet(slot));
        }
        Some(id)
    }

    /// The bytes of the first frame of a lent packet.
    pub fn packet_bytes(&self, id: PacketId) -> Result<&[u8], Refusal>
        ensures bytes { IfOk result (λ bytes. Some bytes.now ≡ option_and_then (λ ps. slice_get ps 0) (pieces_lent_as (shown self.now) id)) }
        ensures refused { IsErr result ↔ IsNone (packet_lent_as (shown self.now) id) }
        ensures word { IfErr result (λ word. word ≡ BufInvalid) }
    {
        match self.book.lent_bytes(id) {
            Ok(bytes) => Ok(bytes),
            Err(_) => Err(Refusal::BufInvalid),
        }
    }

    /// Counts the frames of a lent packet.
    pub fn packet_pieces(&self, id: PacketId) -> Result<u32, Refusal>
        ensures count { IfOk result (λ n. Some n ≡ option_map length (pieces_lent_as (shown self.now) id)) }
        ensures some { IfOk result (λ n. 0 < n) }
        ensures whole { content_by (pieces_lent_as (shown self.now) id) ≡ option_map (λ p. p.item.content) (packet_lent_as (shown self.now) id) }
        ensures short { IfSome (packet_lent_as (shown self.now) id) (λ p. length p.item.content ≤ item_size) }
        ensures refused { IsErr result ↔ IsNone (packet_lent_as (shown self.now) id) }
        ensures word { IfErr result (λ word. word ≡ BufInvalid) }
    {
        match self.book.lent_pieces(id) {
            Ok(count) => Ok(count),
            Err(_) => Err(Refusal::BufInvalid),
        }
    }

    /// The bytes of the n-th frame of a lent packet, counted from 0.
    pub fn packet_piece(&self, id: PacketId, n: u32) -> Result<&[u8], Refusal>
        requires below { IfSome (pieces_lent_as (shown self.now) id) (λ ps. n < length ps) }
        ensures bytes { IfOk result (λ bytes. Some bytes.now ≡ option_and_then (λ ps. slice_get ps n) (pieces_lent_as (shown self.now) id)) }
        ensures refused { IsErr result ↔ IsNone (packet_lent_as (shown self.now) id) }
        ensures word { IfErr result (λ word. word ≡ BufInvalid) }
    {
        match self.book.lent_piece(id, n) {
            Ok(bytes) => Ok(bytes),
            Err(_) => Err(Refusal::BufInvalid),
        }
    }

    /// `release` after its turn.
    pub fn end_packet(&mut self, id: PacketId) -> Result<(), Refusal>
        ensures { Acts P.Moved 0 (release_of (place_of_packet_id (shown self.old).packets id)) self.old self.new (sent result) None }
    {
        let Some(place) = self.endpoints.place_lent(id) else {
            return Err(Refusal::BufInvalid);
        };
        self.endpoints.drop_lent(place);
        give_back_lent(&mut self.book, &mut self.peers, id);
        Ok(())
    }

    /// Gives the first bytes of the oldest item at an endpoint, at most 8, or returns `None` where none is queued there.
    fn front(&self, at: Local, place: usize, out: &mut [u8; 8]) -> Option<Got>
        requires there { place_at (state_of self.now.parts) at ≡ Some place }
        requires within { place < length self.now.parts.records.endpoints }
        ensures size { option_map (λ got. got.size) result ≡ option_map (λ i. length i.content) (oldest (queue_at (state_of self.now.parts) at)) }
        ensures bytes { IfSome result (λ got. Some (take got.given out.new) ≡ option_map (λ i. take 8 i.content) (oldest (queue_at (state_of self.now.parts) at))) }
        ensures given { IfSome result (λ got. got.given ≡ min 8 got.size) }
        ensures waits { IfSome result (λ got. 0 < length (slots_at self.now.parts.records place)) }
    {
        let slot = self.endpoints.oldest_at(place)?;
        Some(give(&self.book, slot, 8, out))
    }
}
