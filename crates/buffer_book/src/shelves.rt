//! Shelves of peers that differ: what is held in a slot, and what changes there.
ghost use Rattle.std.specs.Prelude.{◌≡◌, ◌<◌, ◌==◌, ◌↔◌, IfOk, IfSome, IsSome, IsNone, Some, None, length, map, position, option_copied, option_map, option_and_then};
ghost use Rattle.std.specs.List.{AllByRecursion};
ghost use Rattle.mc_base.specs.declared.request.Slot.{Slot};
ghost use Rattle.buffer_book.specs.Book.{empty_shelf, enqueued, joined, lent_on, taken, is_single, count_of, item_at, queued_at, size_of, queued_from, lent_from, HoldsOnce};
ghost use Rattle.buffer_book.specs.Shelves.{shelved, place_in, item_in, frame_in, with_shelf_in, PeersDiffer};

use crate::held::HeldBuffer;
use crate::places::Places;
use crate::shelf::PeerShelf;
use mc_base::{NoMemory, Slot};
use std::alloc::Global;

/// A shelf for each peer, on which nothing is held.
pub fn empty(alloc: Global, sizes: &[(u8, u32)]) -> Result<Vec<PeerShelf>, NoMemory>
    ensures { IfOk result (λ v. v.items ≡ map empty_shelf sizes.now) }
{
    let mut shelves = Vec::new(alloc);
    for (peer, size) in sizes {
        let shelf = PeerShelf::new(alloc, *peer, *size)?;
        if shelves.push(shelf).is_err() {
            return Err(NoMemory);
        }
    }
    Ok(shelves)
}

/// The place of a peer's shelf.
pub fn place_of(shelves: &[PeerShelf], peer: u8) -> Option<usize>
    ensures place { result ≡ position (λ s. s.peer == peer) shelves.now }
    ensures within { IfSome result (λ i. i < length shelves.now) }
{
    shelves.iter().position(|s| s.is_of(peer))
}

/// Counts the frames of the item that a slot names, where it is in this state.
pub fn frames(shelves: &[PeerShelf], slot: Slot, lent: Option<u64>) -> Option<u32>
    ensures { result ≡ option_map count_of (item_in shelves.now slot lent) }
{
    let at = place_of(shelves, slot.peer)?;
    shelves[at].frames(slot.buffer, lent)
}

/// The n-th frame of the item that a slot names, where it is in this state.
pub fn frame(shelves: &[PeerShelf], slot: Slot, lent: Option<u64>, n: u32) -> Option<&HeldBuffer>
    requires { IfSome (item_in shelves.now slot lent) (λ i. n < count_of i) }
    ensures none { IsNone result ↔ IsNone (item_in shelves.now slot lent) }
    ensures frame { option_copied result ≡ option_and_then (frame_in shelves.now slot n) (item_in shelves.now slot lent) }
{
    let at = place_of(shelves, slot.peer)?;
    shelves[at].frame(slot.buffer, lent, n)
}

/// Returns how many buffers a peer has.
pub fn size(shelves: &[PeerShelf], peer: u8) -> usize
    ensures { result ≡ size_of (shelved shelves.now) peer }
{
    match place_of(shelves, peer) {
        Some(at) => shelves[at].size(),
        None => 0,
    }
}

/// Counts the frames of a peer that are in queues, and those that are lent.
pub fn count(shelves: &[PeerShelf], peer: u8) -> Places
    ensures queue { result.queue ≡ queued_from (shelved shelves.now) peer }
    ensures lent { result.lent ≡ lent_from (shelved shelves.now) peer }
{
    match place_of(shelves, peer) {
        Some(at) => shelves[at].count(),
        None => Places { queue: 0, lent: 0 },
    }
}

/// Shows that each frame of an item is held, and in no other item.
pub fn each_held_once(shelves: &[PeerShelf])
    ensures { AllByRecursion HoldsOnce shelves.now }
{
    for shelf in shelves {
        shelf.each_held_once();
    }
}

/// Queues an item of one frame. A lent item of that name stands aside.
pub fn put(shelves: &mut [PeerShelf], slot: Slot, held: HeldBuffer)
    requires differ { PeersDiffer shelves.old }
    requires away { place_in shelves.old slot ≡ Some None }
    requires unqueued { IsNone (queued_at (shelved shelves.old) slot) }
    requires number { held.buffer.number ≡ slot.buffer }
    ensures { shelves.new ≡ with_shelf_in shelves.old slot.peer (enqueued slot.buffer held) }
{
    if let Some(at) = place_of(shelves, slot.peer) {
        shelves[at].put(slot.buffer, held);
    }
}

/// Appends a frame to an item.
pub fn join(shelves: &mut [PeerShelf], slot: Slot, number: u16, held: HeldBuffer)
    requires differ { PeersDiffer shelves.old }
    requires item { IsSome (item_at (shelved shelves.old) slot) }
    requires away { place_in shelves.old (record slot { buffer = number }) ≡ Some None }
    requires number { held.buffer.number ≡ number }
    ensures { shelves.new ≡ with_shelf_in shelves.old slot.peer (joined slot.buffer number held) }
{
    if let Some(at) = place_of(shelves, slot.peer) {
        shelves[at].join(slot.buffer, number, held);
    }
}

/// Lends the item that a slot names.
pub fn lend(shelves: &mut [PeerShelf], slot: Slot, serial: u64)
    requires differ { PeersDiffer shelves.old }
    requires item { IsSome (item_at (shelved shelves.old) slot) }
    ensures { shelves.new ≡ with_shelf_in shelves.old slot.peer (lent_on slot.buffer serial) }
{
    if let Some(at) = place_of(shelves, slot.peer) {
        shelves[at].lend(slot.buffer, serial);
    }
}

/// Takes the oldest frame of the item that a slot names, where it is in this state, and tells whether it was the last.
pub fn take(shelves: &mut [PeerShelf], slot: Slot, lent: Option<u64>) -> Option<(HeldBuffer, bool)>
    requires { PeersDiffer shelves.old }
    ensures none { IsNone result ↔ IsNone (item_in shelves.old slot lent) }
    ensures frame { option_map (λ r. r.0) result ≡ option_and_then (frame_in shelves.old slot 0) (item_in shelves.old slot lent) }
    ensures last { option_map (λ r. r.1) result ≡ option_map is_single (item_in shelves.old slot lent) }
    ensures number { option_map (λ r. r.0.buffer.number) result ≡ option_map (λ i. i.first) (item_in shelves.old slot lent) }
    ensures shelves { IsSome result → shelves.new ≡ with_shelf_in shelves.old slot.peer (taken slot.buffer lent) }
    ensures stays { IsNone result → shelves.new ≡ shelves.old }
{
    let at = place_of(shelves, slot.peer)?;
    shelves[at].take(slot.buffer, lent)
}
