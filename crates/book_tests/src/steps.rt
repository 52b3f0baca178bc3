//! What the tests do with a book: queue, lend and give back buffers whose bytes count up, and look at them.
ghost use Rattle.std.specs.Prelude.{◌≡◌, ◌≢◌, ◌≤◌, ◌<◌, ◌+◌, ℕ, OnOk, IfOk, Some, None, IsTrue, length};
ghost use Rattle.mc_base.specs.Limits.{buffer_size};
ghost use Rattle.mc_base.specs.declared.request.Slot.{Slot};
ghost use Rattle.buffer_book.specs.Book.{IsAway, IsQueued, slot_of};

use buffer_book::{BufInvalid, Buffer, BufferBook, NoMemory, PacketId, Places, Slot};
use std::alloc::Global;

/// Counts up from a byte on, and from 0 again after 255.
pub fn count_up(out: &mut [u8], first: u8) {
    let mut value = first;
    for byte in out.iter_mut() {
        *byte = value;
        value = value.wrapping_add(1);
    }
}

/// Whether these are so many bytes of a counting buffer from a place on.
pub fn is_stretch(bytes: &[u8], start: u32, size: u32) -> bool {
    let mut value = (start % 256) as u8;
    for byte in bytes {
        if *byte != value {
            return false;
        }
        value = value.wrapping_add(1);
    }
    bytes.len() == size as usize
}

/// A buffer whose bytes count up from 0.
pub fn counting(alloc: Global, number: u16) -> Result<Buffer, NoMemory>
    ensures number { IfOk result (λ b. b.number ≡ number) }
    ensures wide { IfOk result (λ b. length b.bytes ≡ buffer_size) }
{
    let mut buffer = Buffer::new(alloc, number)?;
    count_up(buffer.bytes_mut(), 0);
    Ok(buffer)
}

/// Queues a counting buffer. Nothing must be queued in its slot.
pub fn queue(
    alloc: Global,
    book: &mut BufferBook,
    slot: Slot,
    start: u32,
    size: u32,
) -> Result<Slot, NoMemory>
    requires away { IsAway book.old slot }
    requires inside { start + size ≤ buffer_size }
    ensures slot { IfOk result (λ s. s ≡ slot) }
    ensures queued { OnOk result (IsQueued book.new slot) }
    ensures others { OnOk result ((other : Slot) → other.buffer ≢ slot.buffer → IsAway book.old other → IsAway book.new other) }
{
    book.each_held_once();
    if book.withdraw_next(slot).is_some() {
        return Err(NoMemory);
    }
    let buffer = counting(alloc, slot.buffer)?;
    Ok(book.enqueue(slot.peer, buffer, start, size))
}

/// Queues a counting buffer, and lends it.
pub fn lend(alloc: Global, book: &mut BufferBook, slot: Slot) -> Result<PacketId, NoMemory>
    requires { IsAway book.old slot }
    ensures id { IfOk result (λ id. slot_of id ≡ slot) }
    ensures others { OnOk result ((other : Slot) → other.buffer ≢ slot.buffer → IsAway book.old other → IsAway book.new other) }
{
    let slot = queue(alloc, book, slot, 24, 8)?;
    Ok(book.lend(slot))
}

/// Releases the first buffer of a packet, and tells whether it is the one that names the packet. It is away then.
pub fn give_up(book: &mut BufferBook, id: PacketId) -> bool
    ensures own { IsTrue result → IsAway book.new (slot_of id) }
    ensures others { IsTrue result → ((other : Slot) → other.buffer ≢ id.buffer → IsAway book.old other → IsAway book.new other) }
{
    match book.release_next(id) {
        Ok((buffer, _)) => buffer.number() == id.buffer,
        Err(BufInvalid) => false,
    }
}

/// Appends a counting buffer to an item in the queue.
pub fn join(
    alloc: Global,
    book: &mut BufferBook,
    first: Slot,
    number: u16,
    start: u32,
    size: u32,
) -> Result<(), NoMemory>
    requires item { IsQueued book.old first }
    requires away { IsAway book.old (record { peer = first.peer; buffer = number }) }
    requires inside { start + size ≤ buffer_size }
    ensures queued { OnOk result (IsQueued book.new first) }
    ensures others { OnOk result ((other : Slot) → other.buffer ≢ number → IsAway book.old other → IsAway book.new other) }
{
    let buffer = counting(alloc, number)?;
    book.join(first, buffer, start, size);
    Ok(())
}

/// Lends an item of two counting buffers, and releases the first. The other stays lent.
pub fn lend_two(
    alloc: Global,
    book: &mut BufferBook,
    slot: Slot,
    second: u16,
) -> Result<PacketId, NoMemory>
    requires first { IsAway book.old slot }
    requires second { IsAway book.old (record { peer = slot.peer; buffer = second }) }
    requires differ { second ≢ slot.buffer }
    ensures own { OnOk result (IsAway book.new slot) }
    ensures others { OnOk result ((other : Slot) → other.buffer ≢ slot.buffer → other.buffer ≢ second → IsAway book.old other → IsAway book.new other) }
{
    queue(alloc, book, slot, 24, 8)?;
    join(alloc, book, slot, second, 7, 9)?;
    let id = book.lend(slot);
    if !give_up(book, id) {
        return Err(NoMemory);
    }
    Ok(id)
}

/// Lends the first buffers of a peer.
pub fn lend_first(
    alloc: Global,
    book: &mut BufferBook,
    peer: u8,
    count: u16,
) -> Result<Vec<PacketId>, NoMemory>
    requires { (slot : Slot) → slot.peer ≡ peer → slot.buffer < count → IsAway book.old slot }
{
    let mut ids = Vec::new(alloc);
    for buffer in 0..count {
        let id = lend(alloc, book, Slot { peer, buffer })?;
        if ids.push(id).is_err() {
            return Err(NoMemory);
        }
    }
    Ok(ids)
}

/// Whether so many buffers of a peer are queued, and so many lent.
pub fn holds(book: &BufferBook, peer: u8, queue: u32, lent: u32) -> bool {
    book.places(peer) == Places { queue, lent }
}

/// Whether a packet shows so many bytes of a counting buffer from a place on.
pub fn shows(book: &BufferBook, id: PacketId, start: u32, size: u32) -> bool {
    match book.lent_bytes(id) {
        Ok(bytes) => is_stretch(bytes, start, size),
        Err(BufInvalid) => false,
    }
}

/// Whether a buffer has this number, and counts up from 0 still.
pub fn is_whole(buffer: &Buffer, number: usize) -> bool {
    buffer.number() as usize == number && is_stretch(buffer.bytes(), 0, 512)
}

/// Releases a packet's oldest buffer, and tells whether it is this one, and whole, and the last where it must be.
pub fn gives(book: &mut BufferBook, id: PacketId, number: usize, last: bool) -> bool {
    match book.release_next(id) {
        Ok((buffer, is_last)) => is_last == last && is_whole(&buffer, number),
        Err(BufInvalid) => false,
    }
}

/// Releases a packet's only buffer, and tells whether it is this one, and whole.
pub fn gives_back(book: &mut BufferBook, id: PacketId, number: usize) -> bool {
    gives(book, id, number, true)
}
