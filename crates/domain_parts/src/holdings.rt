//! The inside of a domain as one value, whose methods make its steps.

ghost use Rattle.std.specs.Prelude.{◌≡◌, ◌↔◌, ◌+◌, ◌<◌, ◌≤◌, [], ◌∷◌, Contains, IfSome, IsNone, Some, is_some, length, map, sum_by};
ghost use Rattle.board_model.specs.State.{address_at, endpoint_at, free_to, lent_from, place_at, place_of_peer, queued_from, size_to};
ghost use Rattle.mc_base.specs.Frame.{made};
ghost use Rattle.mc_base.specs.Letter.{FitsFrame, letter_text, saying_of};
ghost use Rattle.board_model.specs.Answer.{address_of, has_channel};
ghost use Rattle.board_model.specs.Journal.{noted_all};
ghost use Rattle.board_model.specs.Serial.{put_entry};
ghost use Rattle.board_model.specs.Queues.{messages_at};
ghost use Rattle.domain_parts.specs.Parts.{Sound, shown, state_of};
ghost use Rattle.domain_parts.specs.Steps.{Did, frame_put};

mod channel_calls;
mod data_calls;
mod endpoint_calls;
mod message_calls;
mod opening;
mod owed;
mod raw_calls;
mod request_calls;
mod sending;
mod taking;
mod turns;
mod wait_calls;

use crate::endpoints::Endpoints;
use crate::messages::write;
use crate::peer::Peer;
use crate::peer_lane::PeerLane;
use crate::peers::place_of;
use crate::requests::handed_from;
use buffer_book::{BufferBook, Places};
use endpoint_table::EndpointTable;
use mc_base::{BUFFER_SIZE, EndName, Letter, Local};
use mc_journal::{Entry, Journal};
pub use opening::carry;
use request_set::RequestSet;
use std::marker::Model;

/// What a domain has inside: its endpoints and requests, the buffers that it holds, and its peers with the ends towards each.
#[derive(Debug, Drop)]
pub struct Holdings<P: PeerLane> {
    endpoints: Endpoints,
    table: EndpointTable,
    book: BufferBook,
    peers: Vec<Peer<P>>,
    requests: RequestSet,
}

impl<P: PeerLane> Model for Holdings<P> {
    ghost use Rattle.domain_parts.specs.Parts.{Holding};
    ghost use Rattle.domain_parts.specs.HoldingParts.{IsSound, holding_of};

    ghost Value = { Holding P };

    ghost view = { holding_of P.seen };

    ghost invariant = { IsSound P.seen };
}

impl<P: PeerLane> Holdings<P> {
    /// Whether there is a lane to a domain.
    pub fn has_peer(&self, number: u8) -> bool
        ensures peer { result ≡ is_some (place_of_peer (state_of self.now.parts) number) }
        ensures sound { Sound self.now.parts }
    {
        place_of(&self.peers, number).is_some()
    }

    /// Counts the buffers of the lane from a peer that are in queues and those that are lent, or returns `None` where there is no
    /// such lane.
    pub fn places(&self, peer: u8) -> Option<Places>
        ensures none { IsNone result ↔ (Contains (map (λ p. p.number) (state_of self.now.parts).peers) peer → ⊥) }
        ensures queue { IfSome result (λ p. p.queue ≡ queued_from peer (shown self.now).state) }
        ensures lent { IfSome result (λ p. p.lent ≡ lent_from peer (shown self.now).state) }
    {
        place_of(&self.peers, peer)?;
        let held = self.book.places(peer);
        let handed = handed_from(&self.requests, &self.book, peer);
        Some(Places {
            queue: held.queue - handed, // In the book what was handed is in a queue.
            lent: held.lent + handed,
        })
    }

    /// How many messages are queued on all endpoints.
    pub fn messages_queued(&self) -> u32
        ensures { result ≡ sum_by messages_at (shown self.now).state.endpoints }
    {
        self.endpoints.queued() as u32
    }

    /// The place of the endpoint of this name.
    fn place_at(&self, at: Local) -> Option<usize>
        ensures place { result ≡ place_at (state_of self.now.parts) at }
        ensures within { IfSome result (λ i. i < length self.now.parts.records.endpoints) }
        ensures sound { Sound self.now.parts }
    {
        self.endpoints.place_at(&self.table, at)
    }

    /// Whether the endpoint of this name, which is at this place, has a channel.
    fn has_channel(&self, at: Local, place: usize) -> bool
        requires there { place_at (state_of self.now.parts) at ≡ Some place }
        requires within { place < length self.now.parts.records.endpoints }
        ensures { result ≡ has_channel (endpoint_at (state_of self.now.parts) at) }
    {
        self.endpoints.has_channel(place)
    }

    /// The address of the endpoint of this name, which is at this place.
    fn address_at(&self, at: Local, place: usize) -> u32
        requires there { place_at (state_of self.now.parts) at ≡ Some place }
        requires within { place < length self.now.parts.records.endpoints }
        ensures { Some result ≡ address_at (state_of self.now.parts) at }
    {
        self.endpoints.address_of(place)
    }

    /// The address of an endpoint: of this domain where it is live, of another where it is known.
    fn address_of(&self, name: EndName) -> Option<u32>
        ensures { result ≡ address_of (state_of self.now.parts) name }
    {
        if name.domain == self.endpoints.number() {
            let at = Local {
                node: name.node,
                port: name.port,
            };
            return self.endpoints.address_at(&self.table, at);
        }
        let place = place_of(&self.peers, name.domain)?;
        self.peers[place].known.find(name)
    }

    /// How many buffers of the lane to a domain are free.
    pub fn free_to(&self, number: u8) -> u32
        ensures { result ≡ free_to (state_of self.now.parts) number }
    {
        let Some(place) = place_of(&self.peers, number) else {
            return 0;
        };
        self.peers[place].ends.free_len()
    }

    /// How many buffers the lane to a domain has: as many as the lane from it. It counts as 0 where the domain is no peer.
    fn size_to(&self, number: u8) -> usize
        ensures { result ≡ size_to (state_of self.now.parts) number }
    {
        self.book.size_of(number)
    }

    /// Notes the frame of a letter, from one address to another, and puts it to a peer.
    fn put_letter(
        &mut self,
        journal: &mut Journal,
        number: u8,
        source: u32,
        destination: u32,
        letter: &Letter<'_>,
    )
        requires free { 0 < free_to (state_of self.old.parts) number }
        requires lawful { FitsFrame (saying_of letter.now) }
        requires short { length (letter_text letter.now) ≤ 496 }
        requires entry_room { 1 ≤ journal.old.entry_room }
        requires byte_room { 512 ≤ journal.old.byte_room }
        ensures did { Did P.Moved (frame_put number (made source destination (letter_text letter.now)) ∷ []) self.old self.new }
        ensures told { journal.new.lines ≡ noted_all journal.old.lines (put_entry (number, made source destination (letter_text letter.now)) ∷ []) }
        ensures entry_room { journal.old.entry_room ≤ journal.new.entry_room + 1 }
        ensures byte_room { journal.old.byte_room ≤ journal.new.byte_room + 512 }
    {
        let mut out = [0; BUFFER_SIZE];
        let len = write(&mut out, source, destination, letter);
        let frame = &out[..len as usize];
        journal.note(Entry::Put {
            peer: number,
            frame,
        });
        self.put(number, frame);
    }

    /// Puts a frame to a peer.
    fn put(&mut self, number: u8, frame: &[u8])
        requires free { 0 < free_to (state_of self.old.parts) number }
        requires some { 0 < length frame.now }
        requires fits { length frame.now ≤ 512 }
        ensures { Did P.Moved (frame_put number frame.now ∷ []) self.old self.new }
    {
        if let Some(place) = place_of(&self.peers, number) {
            self.peers[place].ends.put(frame);
        }
    }
}
