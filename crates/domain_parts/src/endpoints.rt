//! The endpoints of a domain and their queues.

ghost use Rattle.std.specs.Prelude.{◌≡◌, ◌≤◌, ◌<◌, ◌+◌, [], false, IfOk, IfSome, IsNone, ◌^◌, ◌==◌, filter, find, length, map, sum_by, is_some, position, slice_get, Some, nat_le, option_map, vec_capacity};
ghost use Rattle.std.specs.List.{AllByRecursion};
ghost use Rattle.std.specs.Ordering.{nat_cmp};
ghost use Rattle.mc_base.specs.Limits.{first_address, channel_limit, domain_limit};
ghost use Rattle.board_model.specs.State.{address_at, place_at, place_of_address, queue_in};
ghost use Rattle.board_model.specs.Choice.{best, oldest};
ghost use Rattle.buffer_book.specs.Book.{Book};
ghost use Rattle.message_queue.specs.Queue.{waiting};
ghost use Rattle.board_model.specs.Queues.{hears};
ghost use Rattle.domain_parts.specs.Hearing.{hears_at, messages_waiting};
ghost use Rattle.domain_parts.specs.Table.{holding};
ghost use Rattle.domain_parts.specs.Records.{
  all_waiting,
  kept,
  opening_records,
  part_open,
  waiting_in,
  with_best_taken_at,
  with_channel_at,
  with_channel_given,
  with_last_lent,
  with_oldest_taken_at,
  with_part_open,
  with_record,
  with_waiting_at,
  without_lent_at,
  without_part,
  without_part_of,
  without_record_at,
};
ghost use Rattle.domain_parts.specs.DomainView.{place_of_packet_id};
ghost use Rattle.domain_parts.specs.InBook.{endpoints_in};
ghost use Rattle.domain_parts.specs.InTable.{AreInOrder, IsKept, IsNumbered, IsSpare};
ghost use Rattle.domain_parts.specs.Tied.{live_record};

use crate::parts::OpenPart;
use endpoint_table::EndpointTable;
use mc_base::{
    FIRST_ADDRESS, Local, MAX_CHANNELS, MAX_DOMAINS, MAX_ENDPOINTS, NoMemory, PacketId, Priority,
    Side, Slot,
};
use message_queue::MessageQueue;
use packet_channel::Channel;
use std::alloc::Global;
use std::marker::Model;

/// An endpoint, the buffers that wait for it, and its end of a channel, which is none where both ends are closed.
#[derive(Debug, Drop)]
pub struct Endpoint {
    local: Local,
    address: u32,
    queue: MessageQueue,
    channel: Option<Channel>,
}

impl Endpoint {
    /// Whether it has the receiver's end of a channel.
    fn hears(&self, owner: u8, number: u32) -> bool
        ensures { result ≡ hears_at owner number self.now }
    {
        match self.channel {
            Some(end) => {
                end.side == Side::Receiver && (end.number == number && end.owner == owner)
            }
            None => false,
        }
    }
}

/// The endpoints in the order in which they were created, queues for those to come, the packets that were received and are lent, in
/// the order in which they were lent, and the open parts of items, in the order in which they grew last.
#[derive(Debug, Drop)]
pub struct Endpoints {
    number: u8,
    records: Vec<Endpoint>,
    spare: Vec<MessageQueue>,
    lent: Vec<PacketId>,
    parts: Vec<OpenPart>,
    given: u32,
    channels: u32,
    room: u32,
}

impl Model for Endpoints {
    ghost use Rattle.domain_parts.specs.Records.{Records};

    ghost Value = { Records };

    ghost use Rattle.domain_parts.specs.InTable.{records_of, HasQueues};

    ghost view = { records_of };

    ghost invariant = { HasQueues };
}

impl Endpoints {
    /// No endpoints yet, of the domain of this number, and queues for 64 with room for as many messages each. As many packets may
    /// be lent.
    pub fn open(alloc: Global, number: u8, room: u32) -> Result<Endpoints, NoMemory>
        ensures { IfOk result (λ r. r ≡ opening_records number room) }
    {
        let Ok(records) = Vec::with_capacity(alloc, MAX_ENDPOINTS) else {
            return Err(NoMemory);
        };
        let Ok(lent) = Vec::with_capacity(alloc, room as usize) else {
            return Err(NoMemory);
        };
        let Ok(parts) = Vec::with_capacity(alloc, MAX_DOMAINS as usize) else {
            return Err(NoMemory);
        };
        Ok(Endpoints {
            number,
            records,
            spare: empty_queues(alloc, room)?,
            lent,
            parts,
            given: 0,
            channels: 0,
            room,
        })
    }

    /// The domain's number.
    pub fn number(&self) -> u8
        ensures { result ≡ self.now.number }
    {
        self.number
    }

    /// The place of the endpoint of this name, by the table that has the addresses of the names.
    pub fn place_at(&self, table: &EndpointTable, at: Local) -> Option<usize>
        requires live { filter (λ x. x.live) table.now.records ≡ map live_record self.now.endpoints }
        ensures place { (b : Book) → result ≡ place_at (holding (endpoints_in b self.now.endpoints)) at }
        ensures within { IfSome result (λ i. i < length self.now.endpoints) }
    {
        let address = table.find(at)?;
        place_with_address(&self.records, address)
    }

    /// The address of the endpoint of this name.
    pub fn address_at(&self, table: &EndpointTable, at: Local) -> Option<u32>
        requires live { filter (λ x. x.live) table.now.records ≡ map live_record self.now.endpoints }
        ensures address { (b : Book) → result ≡ address_at (holding (endpoints_in b self.now.endpoints)) at }
        ensures live { (b : Book) → is_some result ≡ is_some (place_at (holding (endpoints_in b self.now.endpoints)) at) }
        ensures range { IfSome result (λ a. first_address ≤ a) }
    {
        let place = self.place_at(table, at)?;
        Some(self.records[place].address)
    }

    /// The place of the endpoint with this address.
    pub fn place_of_address(&self, address: u32) -> Option<usize>
        ensures place { (b : Book) → result ≡ place_of_address (holding (endpoints_in b self.now.endpoints)) address }
        ensures within { IfSome result (λ i. i < length self.now.endpoints) }
    {
        place_with_address(&self.records, address)
    }

    /// Creates an endpoint and returns its address.
    pub fn add(&mut self, at: Local) -> u32
        requires few { length self.old.endpoints < 64 }
        requires given { self.old.given < 60000 }
        ensures address { result ≡ first_address + self.old.given }
        ensures added { self.new ≡ with_record self.old at }
    {
        let queue = self.spare.pop().unwrap();
        let address = FIRST_ADDRESS + self.given;
        self.records
            .push(Endpoint {
                local: at,
                address,
                queue,
                channel: None,
            })
            .unwrap();
        self.given += 1;
        address
    }

    /// Ends the endpoint at a place, where nothing waits. Its queue serves another from then on.
    pub fn remove(&mut self, place: usize)
        requires within { place < length self.old.endpoints }
        requires empty { waiting_in (slice_get self.old.endpoints place) ≡ [] }
        ensures { self.new ≡ without_record_at self.old place }
    {
        let endpoint = self.records.remove(place);
        self.spare.push(endpoint.queue).unwrap();
    }

    /// Queues a buffer last at the endpoint at a place.
    pub fn queue_last(&mut self, place: usize, slot: Slot, priority: Priority)
        requires within { place < length self.old.endpoints }
        requires room { length (all_waiting self.old.endpoints) < self.old.room }
        ensures { self.new ≡ with_waiting_at self.old place (waiting slot priority) }
    {
        let endpoint = &mut self.records[place];
        endpoint.queue.push(slot, priority);
    }

    /// Takes the oldest buffer of the best priority at a place, or `None` where none waits there.
    pub fn take_best(&mut self, place: usize) -> Option<(Slot, Priority)>
        requires within { place < length self.old.endpoints }
        ensures none { IsNone result → waiting_in (slice_get self.old.endpoints place) ≡ [] }
        ensures best { IfSome result (λ r. best (λ w. w.priority) (waiting_in (slice_get self.old.endpoints place)) ≡ Some (waiting r.0 r.1)) }
        ensures rest { self.new ≡ with_best_taken_at self.old place }
    {
        let endpoint = &mut self.records[place];
        endpoint.queue.pop_best()
    }

    /// Takes the oldest buffer at a place, or `None` where none waits there.
    pub fn take_oldest(&mut self, place: usize) -> Option<Slot>
        requires within { place < length self.old.endpoints }
        ensures oldest { result ≡ option_map (λ w. w.slot) (oldest (waiting_in (slice_get self.old.endpoints place))) }
        ensures rest { self.new ≡ with_oldest_taken_at self.old place }
    {
        let endpoint = &mut self.records[place];
        endpoint.queue.pop_oldest()
    }

    /// The oldest buffer at a place, which stays, or `None` where none waits there.
    pub fn oldest_at(&self, place: usize) -> Option<Slot>
        requires within { place < length self.now.endpoints }
        ensures { result ≡ option_map (λ w. w.slot) (oldest (waiting_in (slice_get self.now.endpoints place))) }
    {
        self.records[place].queue.front()
    }

    /// Keeps the id of a packet, which is lent from now on, last.
    pub fn keep_lent(&mut self, id: PacketId)
        requires { length self.old.lent < self.old.room }
        ensures { self.new ≡ with_last_lent self.old id }
    {
        self.lent.push(id).unwrap();
    }

    /// The place of a packet among those that are lent.
    pub fn place_lent(&self, id: PacketId) -> Option<usize>
        ensures place { result ≡ place_of_packet_id self.now.lent id }
        ensures within { IfSome result (λ i. i < length self.now.lent) }
    {
        self.lent.iter().position(|i| *i == id)
    }

    /// Takes out the id of the packet at a place, which is lent no longer.
    pub fn drop_lent(&mut self, place: usize)
        requires { place < length self.old.lent }
        ensures { self.new ≡ without_lent_at self.old place }
    {
        self.lent.remove(place);
    }

    /// The open part of a peer.
    pub fn part_of(&self, peer: u8) -> Option<OpenPart>
        ensures { result ≡ part_open self.now peer }
    {
        self.parts.iter().copied().find(|p| p.slot.peer == peer)
    }

    /// Has a part be the open one of its peer, last.
    pub fn keep_part(&mut self, part: OpenPart)
        requires { length (without_part part.slot.peer self.old.parts) < domain_limit }
        ensures { self.new ≡ with_part_open self.old part }
    {
        self.drop_part(part.slot.peer);
        self.parts.push(part).unwrap();
    }

    /// Has no part of a peer be open.
    pub fn drop_part(&mut self, peer: u8)
        ensures { self.new ≡ without_part_of self.old peer }
    {
        self.parts.retain(|p| p.slot.peer != peer);
    }

    /// The name of the endpoint at a place.
    pub fn local_at(&self, place: usize) -> Local
        requires within { place < length self.now.endpoints }
        ensures { Some result ≡ option_map (λ e. e.local) (slice_get self.now.endpoints place) }
    {
        self.records[place].local
    }

    /// The address of the endpoint at a place.
    pub fn address_of(&self, place: usize) -> u32
        requires within { place < length self.now.endpoints }
        ensures { Some result ≡ option_map (λ e. e.address) (slice_get self.now.endpoints place) }
    {
        self.records[place].address
    }

    /// Whether the endpoint at a place has a channel.
    pub fn has_channel(&self, place: usize) -> bool
        requires within { place < length self.now.endpoints }
        ensures { Some result ≡ option_map (λ e. is_some e.channel) (slice_get self.now.endpoints place) }
    {
        self.records[place].channel.is_some()
    }

    /// The end of a channel of the endpoint at a place.
    pub fn channel_at(&self, place: usize) -> Option<Channel>
        requires within { place < length self.now.endpoints }
        ensures there { Some result ≡ option_map (λ e. e.channel) (slice_get self.now.endpoints place) }
        ensures kept { IsKept result }
        ensures numbered { IsNumbered result }
    {
        self.records[place].channel
    }

    /// Sets the end of a channel of the endpoint at a place. It has none where both ends are closed.
    pub fn set_channel(&mut self, place: usize, channel: Channel)
        requires within { place < length self.old.endpoints }
        requires numbered { 0 < channel.number }
        ensures { self.new ≡ with_channel_at self.old place (kept channel) }
    {
        let endpoint = &mut self.records[place];
        endpoint.channel = kept(channel);
    }

    /// Numbers a channel: 1, and one more for each that was numbered before.
    pub fn number_channel(&mut self) -> u32
        requires few { self.old.channels < channel_limit }
        ensures number { result ≡ self.old.channels + 1 }
        ensures numbered { self.new ≡ with_channel_given self.old }
    {
        self.channels += 1;
        self.channels
    }

    /// Whether all numbers of channels are used.
    pub fn is_out_of_numbers(&self) -> bool
        ensures { result ≡ nat_le channel_limit self.now.channels }
    {
        self.channels >= MAX_CHANNELS
    }

    /// How many channels were numbered.
    pub fn channels_given(&self) -> u32
        ensures { result ≡ self.now.channels }
    {
        self.channels
    }

    /// How many messages wait at a place.
    pub fn queued_at(&self, place: usize) -> u32
        requires within { place < length self.now.endpoints }
        ensures { result ≡ length (waiting_in (slice_get self.now.endpoints place)) }
    {
        self.records[place].queue.len()
    }

    /// How many items are queued at the receiver's end of a channel, 0 where there is none.
    pub fn queued_on(&self, owner: u8, number: u32) -> u32
        ensures { (b : Book) → result ≡ length (queue_in (find (hears owner number) (endpoints_in b self.now.endpoints))) }
    {
        match place_with_channel(&self.records, owner, number) {
            Some(place) => self.records[place].queue.len(),
            None => 0,
        }
    }

    /// How many messages wait. They do at endpoints without a channel.
    pub fn queued(&self) -> usize
        requires { length (all_waiting self.now.endpoints) < 2 ^ 64 }
        ensures count { result ≡ sum_by messages_waiting self.now.endpoints }
        ensures most { result ≤ length (all_waiting self.now.endpoints) }
    {
        count_messages(&self.records)
    }
}

/// An end of a channel, or none where both ends are closed.
fn kept(channel: Channel) -> Option<Channel>
    requires numbered { 0 < channel.number }
    ensures same { result ≡ kept channel }
    ensures kept { IsKept result }
    ensures numbered { IsNumbered result }
{
    if channel.has_ended() {
        return None;
    }
    Some(channel)
}

/// The place of the endpoint with an address, by binary search.
fn place_with_address(records: &[Endpoint], address: u32) -> Option<usize>
    requires { AreInOrder records.now }
    ensures place { result ≡ position (λ e. e.address == address) records.now }
    ensures within { IfSome result (λ i. i < length records.now) }
{
    let found = records.binary_search_by(
        |e|
            ensures { result ≡ nat_cmp e.now.address address }
        { e.address.cmp(&address) },
    );
    match found {
        Ok(place) => Some(place),
        Err(_) => None,
    }
}

/// The place of the endpoint with the receiver's end of a channel.
fn place_with_channel(records: &[Endpoint], owner: u8, number: u32) -> Option<usize>
    ensures place { result ≡ position (hears_at owner number) records.now }
    ensures within { IfSome result (λ i. i < length records.now) }
{
    records.iter().position(
        |e|
            ensures { result ≡ hears_at owner number e.now }
        { e.hears(owner, number) },
    )
}

fn count_messages(records: &[Endpoint]) -> usize
    requires { sum_by messages_waiting records.now < 2 ^ 64 }
    ensures { result ≡ sum_by messages_waiting records.now }
{
    records.iter().map(|e| messages_at(e)).sum()
}

/// How many messages wait at an endpoint. At one with a channel only its items do.
fn messages_at(endpoint: &Endpoint) -> usize
    ensures { result ≡ messages_waiting endpoint.now }
{
    if endpoint.channel.is_none() {
        endpoint.queue.len() as usize
    } else {
        0
    }
}

/// The queues of all endpoints that there can be.
fn empty_queues(alloc: Global, room: u32) -> Result<Vec<MessageQueue>, NoMemory>
    ensures each { IfOk result (λ v. AllByRecursion (IsSpare room) v.items) }
    ensures count { IfOk result (λ v. length v.items ≡ 64) }
    ensures room { IfOk result (λ v. 64 ≤ vec_capacity v) }
{
    let Ok(mut queues) = Vec::with_capacity(alloc, MAX_ENDPOINTS) else {
        return Err(NoMemory);
    };
    for _ in 0..MAX_ENDPOINTS {
        let queue = MessageQueue::new(alloc, room)?;
        if queues.push(queue).is_err() {
            return Err(NoMemory);
        }
    }
    Ok(queues)
}
