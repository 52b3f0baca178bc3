//! The buffers of the lane from a peer that are held: in queues, in its open part, and lent.

ghost use Rattle.std.specs.Prelude.{◌≡◌, ◌+◌, ◌∷◌, ◌++◌, [], IfOk, OnOk, Some, filter, length, map, min, not};
ghost use Rattle.std.specs.List.{flat_map};
ghost use Rattle.board_model.specs.Change.{held_as};
ghost use Rattle.board_model.specs.State.{frames_from, holds_from, item_in, queued_from, lent_from, held_from, held_of};
ghost use Rattle.report_replay.specs.Replayed.{greatest};

use crate::endpoint::Endpoint;
use crate::request::{LentPacket, Request};
use crate::state::State;
use mc_base::NoMemory;
use std::alloc::Global;
use std::marker::Model;

/// A frame that is held in the open part of a peer, by its name.
#[derive(Debug, Drop)]
pub struct HeldFrame {
    pub(crate) peer: u8,
    pub(crate) name: u32,
}

impl Model for HeldFrame {
    ghost use Rattle.board_model.specs.State.{HeldFrame as Plain};

    ghost Value = { Plain };

    ghost view = { λ h. record { peer = h.peer; name = h.name } };
}

impl State {
    /// How many buffers of the lane from a peer stand in queues and in its open part, or the greatest `u64` where there are more.
    pub fn queued_from(&self, peer: u8) -> u64
        ensures { result ≡ min greatest (queued_from peer self.now) }
    {
        queued_in(&self.endpoints, peer).saturating_add(frames_in(&self.held, peer))
    }

    /// How many buffers of the lane from a peer are lent, or the greatest `u64` where there are more.
    pub fn lent_from(&self, peer: u8) -> u64
        ensures { result ≡ min greatest (lent_from peer self.now) }
    {
        packets_in(&self.lent, peer).saturating_add(held_in(&self.requests, peer))
    }

    /// How many buffers of the lane from a peer are held, or the greatest `u64` where there are more.
    pub fn held_from(&self, peer: u8) -> u64
        ensures { result ≡ min greatest (held_from peer self.now) }
    {
        self.queued_from(peer).saturating_add(self.lent_from(peer))
    }

    /// Takes the frames of a peer's open part out of those that are held, and returns their names.
    pub(crate) fn take_held(&mut self, alloc: Global, peer: u8) -> Result<Vec<u32>, NoMemory>
        ensures names { IfOk result (λ names. names.items ≡ held_of self.old peer) }
        ensures state { OnOk result (self.new ≡ record self.old { held = filter (λ h. not (holds_from peer h)) self.old.held }) }
    {
        let names = names_held(alloc, &self.held, peer)?;
        self.held.retain(|h| h.peer != peer);
        Ok(names)
    }

    /// Holds frames from a peer in its open part: these, and the last.
    pub(crate) fn hold(&mut self, peer: u8, earlier: &[u32], last: u32) -> Result<(), NoMemory>
        ensures { OnOk result (self.new ≡ record self.old { held = self.old.held ++ map (held_as peer) (earlier.now ++ last ∷ []) }) }
    {
        push_held(&mut self.held, peer, earlier)?;
        push_held(&mut self.held, peer, &[last])
    }
}

/// The names of the frames from a peer among these.
fn names_held(alloc: Global, held: &[HeldFrame], peer: u8) -> Result<Vec<u32>, NoMemory>
    ensures { IfOk result (λ names. names.items ≡ map (λ h. h.name) (filter (holds_from peer) held.now)) }
{
    let mut names = Vec::new(alloc);
    for frame in held {
        if frame.peer == peer && names.push(frame.name).is_err() {
            return Err(NoMemory);
        }
    }
    Ok(names)
}

/// Appends frames of these names from a peer.
fn push_held(held: &mut Vec<HeldFrame>, peer: u8, names: &[u32]) -> Result<(), NoMemory>
    ensures { OnOk result (held.new.items ≡ held.old.items ++ map (held_as peer) names.now) }
{
    for name in names {
        if held.push(HeldFrame { peer, name: *name }).is_err() {
            return Err(NoMemory);
        }
    }
    Ok(())
}

/// How many of these frames are from a peer.
fn frames_in(held: &[HeldFrame], peer: u8) -> u64
    ensures { result ≡ min greatest (length (map (λ h. h.name) (filter (holds_from peer) held.now))) }
{
    let mut count: u64 = 0;
    for frame in held {
        if frame.peer == peer {
            count = count.saturating_add(1);
        }
    }
    count
}

/// How many frames from a peer brought the items in the queues of these endpoints.
fn queued_in(endpoints: &[Endpoint], peer: u8) -> u64
    ensures { result ≡ min greatest (length (frames_from peer (flat_map (λ e. e.queue) endpoints.now))) }
{
    let mut count: u64 = 0;
    for endpoint in endpoints {
        count = count.saturating_add(endpoint.queued_from(peer));
    }
    count
}

/// How many frames from a peer brought these packets.
fn packets_in(packets: &[LentPacket], peer: u8) -> u64
    ensures { result ≡ min greatest (length (frames_from peer (map (λ p. p.item) packets.now))) }
{
    let mut count: u64 = 0;
    for packet in packets {
        count = count.saturating_add(packet.frames_from(peer));
    }
    count
}

/// How many frames from a peer brought the items with which these requests are complete.
fn held_in(requests: &[Request], peer: u8) -> u64
    ensures { result ≡ min greatest (length (frames_from peer (flat_map (λ r. item_in r.outcome) requests.now))) }
{
    let mut count: u64 = 0;
    for request in requests {
        count = count.saturating_add(request.frames_from(peer));
    }
    count
}
