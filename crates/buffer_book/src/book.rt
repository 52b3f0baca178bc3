//! The book itself.
ghost use Rattle.std.specs.Prelude.{◌≡◌, ◌≤◌, ◌<◌, ◌+◌, ◌↔◌, ℕ, IfOk, IfSome, OnOk, OnErr, IsErr, IsNone, IsSome, None, Some, length, map, option_map, option_and_then};
ghost use Rattle.mc_base.specs.Limits.{buffer_size};
ghost use Rattle.buffer_book.specs.Book.{AllDiffer, opening_book, kept_in_buffer, content, count_of, is_single, frame_at, IsAway, IsQueued, queued_at, lent_as, slot_of, with_queued, with_joined, with_lent, with_taken, size_of, queued_from, lent_from, EachHoldsOnce};

use crate::held::HeldBuffer;
use crate::places::Places;
use crate::shelf::PeerShelf;
use crate::shelves;
use mc_base::{BufInvalid, Buffer, NoMemory, PacketId, Slot};
use std::alloc::Global;
use std::marker::Model;

/// What a domain holds of its peers' buffers, each in an item. An item is in a queue or lent.
#[derive(Debug, Drop)]
pub struct BufferBook {
    shelves: Vec<PeerShelf>,
    lends: u64,
}

impl Model for BufferBook {
    ghost use Rattle.buffer_book.specs.Book.{Book};
    ghost use Rattle.buffer_book.specs.Shelves.{PeersDiffer};

    ghost Value = { Book };

    ghost view = { λ b. record { shelves = b.shelves.items; lends = b.lends } };

    ghost invariant = { λ b. PeersDiffer b.shelves.items };
}

impl BufferBook {
    /// Makes a book of peers, each with the number of its buffers. Nothing is held.
    ///
    /// # Errors
    ///
    /// `NoMemory` where an allocation fails.
    pub fn new(alloc: Global, sizes: &[(u8, u32)]) -> Result<BufferBook, NoMemory>
        requires { AllDiffer (map (λ s. s.0) sizes.now) }
        ensures { IfOk result (λ b. b ≡ opening_book sizes.now) }
    {
        let shelves = shelves::empty(alloc, sizes)?;
        Ok(BufferBook { shelves, lends: 0 })
    }

    /// Keeps a buffer that was taken from a peer, as the first frame of an item in a queue. Its content is `size` bytes from
    /// byte `start` on, all within the buffer, which has 512 bytes. No item in a queue has its name; a lent one may.
    pub fn enqueue(&mut self, peer: u8, buffer: Buffer, start: u32, size: u32) -> Slot
        requires away { IsAway self.old (record { peer = peer; buffer = buffer.number }) }
        requires unqueued { IsNone (queued_at self.old (record { peer = peer; buffer = buffer.number })) }
        requires inside { start + size ≤ buffer_size }
        requires wide { length buffer.bytes ≡ buffer_size }
        ensures slot { result ≡ record { peer = peer; buffer = buffer.number } }
        ensures book { self.new ≡ with_queued self.old result (kept_in_buffer buffer start size) }
    {
        let slot = Slot {
            peer,
            buffer: buffer.number(),
        };
        let held = HeldBuffer::new(buffer, start, size);
        shelves::put(&mut self.shelves, slot, held);
        slot
    }

    /// Keeps a buffer that was taken from the same peer, as the next frame of an item in the queue.
    pub fn join(&mut self, first: Slot, buffer: Buffer, start: u32, size: u32)
        requires item { IsQueued self.old first }
        requires away { IsAway self.old (record { peer = first.peer; buffer = buffer.number }) }
        requires inside { start + size ≤ buffer_size }
        requires wide { length buffer.bytes ≡ buffer_size }
        ensures { self.new ≡ with_joined self.old first (kept_in_buffer buffer start size) }
    {
        let number = buffer.number();
        let held = HeldBuffer::new(buffer, start, size);
        shelves::join(&mut self.shelves, first, number, held);
    }

    /// Lends an item that is in a queue. The serial of its id is the number of lends before, modulo 2^64.
    pub fn lend(&mut self, slot: Slot) -> PacketId
        requires { IsQueued self.old slot }
        ensures id { result ≡ record { peer = slot.peer; buffer = slot.buffer; serial = self.old.lends } }
        ensures book { self.new ≡ with_lent self.old slot }
    {
        let serial = self.lends;
        shelves::lend(&mut self.shelves, slot, serial);
        self.lends = serial.wrapping_add(1);
        PacketId {
            peer: slot.peer,
            buffer: slot.buffer,
            serial,
        }
    }

    /// Gives up the oldest frame of a lent item, and returns whether it was the last. After that the id names nothing.
    ///
    /// # Errors
    ///
    /// `BufInvalid` exactly where no lent item has the id. The book is unchanged then.
    pub fn release_next(&mut self, id: PacketId) -> Result<(Buffer, bool), BufInvalid>
        ensures refused { IsErr result ↔ IsNone (lent_as self.old id) }
        ensures buffer { IfOk result (λ r. Some r.0 ≡ option_map (λ k. k.buffer) (option_and_then (frame_at self.old id.peer 0) (lent_as self.old id))) }
        ensures number { IfOk result (λ r. Some r.0.number ≡ option_map (λ i. i.first) (lent_as self.old id)) }
        ensures last { IfOk result (λ r. Some r.1 ≡ option_map is_single (lent_as self.old id)) }
        ensures wide { IfOk result (λ r. length r.0.bytes ≡ buffer_size) }
        ensures book { OnOk result (self.new ≡ with_taken self.old (slot_of id) (Some id.serial)) }
        ensures stays { OnErr result (self.new ≡ self.old) }
    {
        let slot = Slot {
            peer: id.peer,
            buffer: id.buffer,
        };
        match shelves::take(&mut self.shelves, slot, Some(id.serial)) {
            None => Err(BufInvalid),
            Some((held, last)) => Ok((held.into_buffer(), last)),
        }
    }

    /// Takes the oldest frame of an item in the queue out. It is held no more. `None` exactly where the slot names no such
    /// item; nothing changes then.
    pub fn withdraw_next(&mut self, slot: Slot) -> Option<Buffer>
        ensures none { IsNone result ↔ IsNone (queued_at self.old slot) }
        ensures buffer { result ≡ option_map (λ k. k.buffer) (option_and_then (frame_at self.old slot.peer 0) (queued_at self.old slot)) }
        ensures number { option_map (λ b. b.number) result ≡ option_map (λ i. i.first) (queued_at self.old slot) }
        ensures wide { IfSome result (λ b. length b.bytes ≡ buffer_size) }
        ensures book { IsSome result → self.new ≡ with_taken self.old slot None }
        ensures stays { IsNone result → self.new ≡ self.old }
    {
        match shelves::take(&mut self.shelves, slot, None) {
            None => None,
            Some((held, _)) => Some(held.into_buffer()),
        }
    }

    /// Counts the frames of an item that is in a queue.
    pub fn pieces(&self, slot: Slot) -> u32
        requires { IsQueued self.now slot }
        ensures { Some result ≡ option_map count_of (queued_at self.now slot) }
    {
        shelves::frames(&self.shelves, slot, None).unwrap()
    }

    /// Returns the content of the n-th frame of an item that is in a queue, counted from 0.
    pub fn piece(&self, slot: Slot, n: u32) -> &[u8]
        requires queued { IsQueued self.now slot }
        requires below { IfSome (queued_at self.now slot) (λ i. n < count_of i) }
        ensures { Some result.now ≡ option_map content (option_and_then (frame_at self.now slot.peer n) (queued_at self.now slot)) }
    {
        shelves::frame(&self.shelves, slot, None, n)
            .unwrap()
            .content()
    }

    /// Returns the content of the first frame of an item that is in a queue.
    pub fn bytes(&self, slot: Slot) -> &[u8]
        requires { IsQueued self.now slot }
        ensures { Some result.now ≡ option_map content (option_and_then (frame_at self.now slot.peer 0) (queued_at self.now slot)) }
    {
        self.piece(slot, 0)
    }

    /// Counts the frames of a lent item.
    ///
    /// # Errors
    ///
    /// `BufInvalid` exactly where no lent item has the id.
    pub fn lent_pieces(&self, id: PacketId) -> Result<u32, BufInvalid>
        ensures refused { IsErr result ↔ IsNone (lent_as self.now id) }
        ensures count { IfOk result (λ n. Some n ≡ option_map count_of (lent_as self.now id)) }
    {
        let slot = Slot {
            peer: id.peer,
            buffer: id.buffer,
        };
        shelves::frames(&self.shelves, slot, Some(id.serial)).ok_or(BufInvalid)
    }

    /// Returns the content of the n-th frame of a lent item, counted from 0.
    ///
    /// # Errors
    ///
    /// `BufInvalid` exactly where no lent item has the id.
    pub fn lent_piece(&self, id: PacketId, n: u32) -> Result<&[u8], BufInvalid>
        requires { IfSome (lent_as self.now id) (λ i. n < count_of i) }
        ensures refused { IsErr result ↔ IsNone (lent_as self.now id) }
        ensures content { IfOk result (λ bytes. Some bytes.now ≡ option_map content (option_and_then (frame_at self.now id.peer n) (lent_as self.now id))) }
    {
        let slot = Slot {
            peer: id.peer,
            buffer: id.buffer,
        };
        let held = shelves::frame(&self.shelves, slot, Some(id.serial), n).ok_or(BufInvalid)?;
        Ok(held.content())
    }

    /// Returns the content of the first frame of a lent item.
    ///
    /// # Errors
    ///
    /// `BufInvalid` exactly where no lent item has the id.
    pub fn lent_bytes(&self, id: PacketId) -> Result<&[u8], BufInvalid>
        ensures refused { IsErr result ↔ IsNone (lent_as self.now id) }
        ensures content { IfOk result (λ bytes. Some bytes.now ≡ option_map content (option_and_then (frame_at self.now id.peer 0) (lent_as self.now id))) }
    {
        self.lent_piece(id, 0)
    }

    /// Returns how many buffers a peer has. There are none of a peer that the book does not know.
    pub fn size_of(&self, peer: u8) -> usize
        ensures { result ≡ size_of self.now peer }
    {
        shelves::size(&self.shelves, peer)
    }

    /// Counts the frames of a peer that are in queues, and those that are lent. There are none of a peer that the book does
    /// not know.
    pub fn places(&self, peer: u8) -> Places
        ensures queue { result.queue ≡ queued_from self.now peer }
        ensures lent { result.lent ≡ lent_from self.now peer }
    {
        shelves::count(&self.shelves, peer)
    }

    /// Shows that each frame of an item is held, and in no other item.
    pub fn each_held_once(&self)
        ensures { EachHoldsOnce self.now }
    {
        shelves::each_held_once(&self.shelves);
    }
}
