//! The calls that make, open and close channels, after their turns.

ghost use Rattle.std.specs.Prelude.{◌≡◌, ◌<◌, ◌≤◌, ◌+◌, ◌∷◌, [], ◌||◌, ◌==◌, None, Ok, Some, length, map, nat_le, not, option_map};
ghost use Rattle.mc_base.specs.Letter.{saying_of, whole};
ghost use Rattle.mc_base.specs.Limits.{request_limit, channel_limit};
ghost use Rattle.mc_base.specs.declared.refusal.Refusal.TheVariants.{ChanClosed};
ghost use Rattle.board_model.specs.Answer.{channel_at, closing_letter, opening_letter, puts};
ghost use Rattle.board_model.specs.ChannelEnds.{connecting_end};
ghost use Rattle.board_model.specs.DomainCall.{close_at, connect_from, open_at};
ghost use Rattle.board_model.specs.Journal.{noted_all};
ghost use Rattle.board_model.specs.Serial.{put_entry};
ghost use Rattle.board_model.specs.State.{one_waits, place_at, queue_at};
ghost use Rattle.packet_channel.specs.End.{end_of};
ghost use Rattle.domain_parts.specs.Calls.{closed, connected, given_by, sent};
ghost use Rattle.domain_parts.specs.CallSteps.{Acts, Empties};
ghost use Rattle.board_model.specs.Queues.{queued_on};
ghost use Rattle.domain_parts.specs.InTable.{IsNumbered};
ghost use Rattle.domain_parts.specs.Parts.{state_of};
ghost use Rattle.domain_parts.specs.Records.{kept, slots_at};
ghost use Rattle.domain_parts.specs.Steps.{Did, channel_given, channel_set, receives_ended};

use crate::dealing::is_busy;
use crate::holdings::Holdings;
use crate::peer_lane::PeerLane;
use crate::requests::{Waiters, complete_all};
use mc_base::{EndName, Kind, Letter, Local, Refusal, RequestId, Side};
use mc_journal::Journal;
use packet_channel::Channel;
use request_set::{Ask, Complete};

impl<P: PeerLane> Holdings<P> {
    /// `connect` after its turn.
    pub fn begin_connect(
        &mut self,
        journal: &mut Journal,
        from: Local,
        to: EndName,
        kind: Kind,
    ) -> Result<(RequestId, u32), Refusal>
        requires entry_room { 1 ≤ journal.old.entry_room }
        requires byte_room { 512 ≤ journal.old.byte_room }
        ensures acts { Acts P.Moved from.node (connect_from from.port to kind) self.old self.new (connected result) (given_by result) }
        ensures told { journal.new.lines ≡ noted_all journal.old.lines (map put_entry (puts (state_of self.old.parts) from.node (connect_from from.port to kind))) }
        ensures entry_room { journal.old.entry_room ≤ journal.new.entry_room + 1 }
        ensures byte_room { journal.old.byte_room ≤ journal.new.byte_room + 512 }
    {
        let Some(place) = self.place_at(from) else {
            return Err(Refusal::EndpInvalid);
        };
        if self.has_channel(from, place) {
            return Err(Refusal::ChanConnected);
        }
        if self.is_busy(from, place) {
            return Err(Refusal::EndpBusy);
        }
        let source = self.address_at(from, place);
        let Some(destination) = self.address_of(to) else {
            return Err(Refusal::PeerInvalid);
        };
        if self.is_out_of_numbers() {
            return Err(Refusal::ChanLimit);
        }
        if self.is_full() {
            return Err(Refusal::RequestLimit);
        }
        if self.free_to(to.domain) == 0 {
            return Err(Refusal::NoBuffer);
        }
        let end = self.new_sender(kind, to.domain, destination);
        let letter = Letter::Connect {
            channel: end.number,
            kind,
        };
        self.put_letter(journal, to.domain, source, destination, &letter);
        self.set_channel(place, end);
        let id = self.begin_request(Ask::Connect(end.number), None).unwrap();
        self.use_number();
        Ok((id, end.number))
    }

    /// `open_send` and `open_recv` after their turns.
    pub fn open_end(
        &mut self,
        journal: &mut Journal,
        at: Local,
        side: Side,
        kind: Kind,
    ) -> Result<(), Refusal>
        requires entry_room { 1 ≤ journal.old.entry_room }
        requires byte_room { 512 ≤ journal.old.byte_room }
        ensures acts { Acts P.Moved at.node (open_at at.port side kind) self.old self.new (sent result) None }
        ensures told { journal.new.lines ≡ noted_all journal.old.lines (map put_entry (puts (state_of self.old.parts) at.node (open_at at.port side kind))) }
        ensures entry_room { journal.old.entry_room ≤ journal.new.entry_room + 1 }
        ensures byte_room { journal.old.byte_room ≤ journal.new.byte_room + 512 }
    {
        let Some(place) = self.place_at(at) else {
            return Err(Refusal::EndpInvalid);
        };
        let Some(mut channel) = self.channel_at(at, place) else {
            return Err(Refusal::NotConnected);
        };
        channel.may_open(side, kind)?;
        if self.free_to(channel.peer) == 0 {
            return Err(Refusal::NoBuffer);
        }
        let source = self.address_at(at, place);
        let letter = opening_letter(side, channel.number);
        self.put_letter(journal, channel.peer, source, channel.peer_addr, &letter);
        channel.opened();
        self.set_channel(place, channel);
        Ok(())
    }

    /// `close_send` and `close_recv` after their turns. It returns how many items were dropped.
    pub fn close_end(
        &mut self,
        journal: &mut Journal,
        at: Local,
        side: Side,
    ) -> Result<u32, Refusal>
        requires entry_room { 1 ≤ journal.old.entry_room }
        requires byte_room { 512 ≤ journal.old.byte_room }
        ensures acts { Acts P.Moved at.node (close_at at.port side) self.old self.new (closed side result) None }
        ensures told { journal.new.lines ≡ noted_all journal.old.lines (map put_entry (puts (state_of self.old.parts) at.node (close_at at.port side))) }
        ensures entry_room { journal.old.entry_room ≤ journal.new.entry_room + 1 }
        ensures byte_room { journal.old.byte_room ≤ journal.new.byte_room + 512 }
    {
        let Some(place) = self.place_at(at) else {
            return Err(Refusal::EndpInvalid);
        };
        let Some(mut channel) = self.channel_at(at, place) else {
            return Err(Refusal::NotConnected);
        };
        channel.may_close(side)?;
        if self.free_to(channel.peer) == 0 {
            return Err(Refusal::NoBuffer);
        }
        let source = self.address_at(at, place);
        let letter = closing_letter(side, channel.number);
        self.put_letter(journal, channel.peer, source, channel.peer_addr, &letter);
        let dropped = self.empty_end(at, place, side);
        channel.closed();
        self.set_channel(place, channel);
        Ok(dropped)
    }

    /// How many channels were numbered.
    pub fn channels_given(&self) -> u32
        ensures { result ≡ (state_of self.now.parts).channels_given }
    {
        self.endpoints.channels_given()
    }

    /// How many items are queued at the receiver's end of a channel, 0 where there is none.
    pub fn queued_on(&self, owner: u8, number: u32) -> u32
        ensures { result ≡ queued_on owner number (state_of self.now.parts) }
    {
        self.endpoints.queued_on(owner, number)
    }

    /// Ends the receives that wait at a receiver's end, drops all that is queued there, and returns how many items that were.
    fn empty_end(&mut self, at: Local, place: usize, side: Side) -> u32
        requires within { place < length self.old.parts.records.endpoints }
        ensures count { closed side (Ok result) ≡ closed side (Ok (length (slots_at self.old.parts.records place))) }
        ensures did { Empties P.Moved side place at self.old self.new }
    {
        match side {
            Side::Sender => 0,
            Side::Receiver => {
                self.end_receives(at);
                self.drop_all(place)
            }
        }
    }

    /// Completes the receives that wait at an endpoint with the word for a closed channel.
    fn end_receives(&mut self, at: Local)
        ensures { Did P.Moved (receives_ended at ChanClosed ∷ []) self.old self.new }
    {
        complete_all(
            &mut self.requests,
            Waiters::Receives(at),
            Complete::Ended(Refusal::ChanClosed),
        );
    }

    /// Sets the end of a channel of the endpoint at a place. It has none where both ends are closed.
    fn set_channel(&mut self, place: usize, channel: Channel)
        requires within { place < length self.old.parts.records.endpoints }
        requires numbered { 0 < channel.number }
        ensures { Did P.Moved (channel_set place (kept channel) ∷ []) self.old self.new }
    {
        self.endpoints.set_channel(place, channel);
    }

    /// Uses the next number of a channel.
    fn use_number(&mut self)
        requires few { (state_of self.old.parts).channels_given < channel_limit }
        ensures { Did P.Moved (channel_given ∷ []) self.old self.new }
    {
        self.endpoints.number_channel();
    }

    /// The sender's end of the next channel, to an address of a peer.
    fn new_sender(&self, kind: Kind, peer: u8, address: u32) -> Channel
        requires few { (state_of self.now.parts).channels_given < channel_limit }
        ensures end { end_of result ≡ connecting_end kind (state_of self.now.parts).number ((state_of self.now.parts).channels_given + 1) peer address }
        ensures number { result.number ≡ (state_of self.now.parts).channels_given + 1 }
    {
        let number = self.endpoints.channels_given() + 1;
        Channel::connecting(self.endpoints.number(), number, kind, peer, address)
    }

    /// The end of a channel of the endpoint of this name, which is at this place.
    pub(super) fn channel_at(&self, at: Local, place: usize) -> Option<Channel>
        requires there { place_at (state_of self.now.parts) at ≡ Some place }
        requires within { place < length self.now.parts.records.endpoints }
        ensures there { option_map end_of result ≡ channel_at (state_of self.now.parts) at }
        ensures numbered { IsNumbered result }
    {
        self.endpoints.channel_at(place)
    }

    /// Whether an item or a receive waits at the endpoint of this name, which is at this place.
    fn is_busy(&self, at: Local, place: usize) -> bool
        requires there { place_at (state_of self.now.parts) at ≡ Some place }
        requires within { place < length self.now.parts.records.endpoints }
        ensures { result ≡ (not (length (queue_at (state_of self.now.parts) at) == 0) || one_waits (state_of self.now.parts) at) }
    {
        is_busy(&self.endpoints, &self.requests, place)
    }

    /// Whether all numbers of channels are used.
    fn is_out_of_numbers(&self) -> bool
        ensures { result ≡ nat_le channel_limit (state_of self.now.parts).channels_given }
    {
        self.endpoints.is_out_of_numbers()
    }

    /// Whether 64 requests exist.
    fn is_full(&self) -> bool
        ensures { result ≡ nat_le request_limit (length (state_of self.now.parts).requests) }
    {
        self.requests.is_full()
    }
}

/// The letter by which a side opens its end of a channel.
fn opening_letter<'a>(side: Side, channel: u32) -> Letter<'a>
    ensures { saying_of result ≡ whole (opening_letter side channel) }
{
    match side {
        Side::Sender => Letter::SendOpen { channel },
        Side::Receiver => Letter::RecvOpen { channel },
    }
}

/// The letter by which a side closes its end of a channel.
fn closing_letter<'a>(side: Side, channel: u32) -> Letter<'a>
    ensures { saying_of result ≡ whole (closing_letter side channel) }
{
    match side {
        Side::Sender => Letter::SendClose { channel },
        Side::Receiver => Letter::RecvClose { channel },
    }
}
