//! Items of several buffers.
ghost use Rattle.std.specs.Prelude.{IsTrue};
ghost use Rattle.buffer_book.specs.Book.{IsAway, IsQueued};

use crate::steps::{gives, gives_back, holds, is_stretch, is_whole, join, lend_two, queue, shows};
use buffer_book::{BufInvalid, BufferBook, NoMemory, PacketId, Slot};
use std::alloc::Global;
use std::test::Fail;

/// Lends three items of one name, of which two stand aside, and releases them in this order. Each is known by its serial.
fn are_told_apart(alloc: Global, order: &[usize]) -> Result<bool, NoMemory> {
    let slot = Slot { peer: 1, buffer: 1 };
    let mut book = BufferBook::new(alloc, &[(1, 4)])?;
    let first = lend_two(alloc, &mut book, slot, 0)?;
    let second = lend_two(alloc, &mut book, slot, 2)?;
    let third = lend_two(alloc, &mut book, slot, 3)?;
    let rows = [(first, 0usize), (second, 2), (third, 3)];
    let mut lent = 3u32;
    for place in order {
        let Some((id, number)) = rows.get(*place) else {
            return Ok(false);
        };
        if !holds(&book, 1, 0, lent)
            || !shows(&book, *id, 7, 9)
            || !gives_back(&mut book, *id, *number)
            || book.lent_pieces(*id).is_ok()
        {
            return Ok(false);
        }
        lent = lent.saturating_sub(1);
    }
    Ok(holds(&book, 1, 0, 0))
}

#[test]
fn lent_items_of_one_name_are_told_apart(rt: HostRuntime) -> Result<(), Fail> {
    let orders = [
        [0, 1, 2],
        [0, 2, 1],
        [1, 0, 2],
        [1, 2, 0],
        [2, 0, 1],
        [2, 1, 0],
    ];
    for (i, order) in orders.iter().enumerate() {
        assert!(rt; are_told_apart(rt.alloc(), order)?, "row {i}");
    }
    Ok(())
}

/// Whether the n-th buffer of an item in the queue shows so many bytes of a counting buffer from a place on.
fn piece_shows(book: &BufferBook, slot: Slot, n: u32, start: u32, size: u32) -> bool
    requires { IsQueued book.now slot }
{
    n < book.pieces(slot) && is_stretch(book.piece(slot, n), start, size)
}

/// Whether the n-th buffer of a packet does.
fn lent_piece_shows(book: &BufferBook, id: PacketId, n: u32, start: u32, size: u32) -> bool {
    let Ok(count) = book.lent_pieces(id) else {
        return false;
    };
    if n >= count {
        return false;
    }
    match book.lent_piece(id, n) {
        Ok(bytes) => is_stretch(bytes, start, size),
        Err(BufInvalid) => false,
    }
}

/// Releases the four buffers of a packet of peer 1, and tells whether they come oldest first, and the last is said to be it.
fn come_oldest_first(book: &mut BufferBook, id: PacketId) -> bool {
    let rows = [
        (2usize, 4u32, 28, 484, false),
        (0, 3, 29, 101, false),
        (3, 2, 30, 102, false),
        (1, 1, 31, 103, true),
    ];
    for (number, left, start, size, last) in rows {
        if !matches!(book.lent_pieces(id), Ok(n) if n == left)
            || !holds(book, 1, 0, left)
            || !shows(book, id, start, size)
            || !lent_piece_shows(book, id, left.saturating_sub(1), 31, 103)
            || lent_piece_shows(book, id, left, 31, 103)
            || !gives(book, id, number, last)
        {
            return false;
        }
    }
    holds(book, 1, 0, 0) && book.lent_pieces(id).is_err() && !gives(book, id, 1, true)
}

/// Lends an item of all four buffers of a peer, and releases it.
fn is_released_in_turn(alloc: Global) -> Result<bool, NoMemory> {
    let slot = Slot { peer: 1, buffer: 2 };
    let mut book = BufferBook::new(alloc, &[(1, 4)])?;
    queue(alloc, &mut book, slot, 28, 484)?;
    join(alloc, &mut book, slot, 0, 29, 101)?;
    join(alloc, &mut book, slot, 3, 30, 102)?;
    join(alloc, &mut book, slot, 1, 31, 103)?;
    let queued = book.pieces(slot) == 4
        && holds(&book, 1, 4, 0)
        && is_stretch(book.bytes(slot), 28, 484)
        && piece_shows(&book, slot, 1, 29, 101)
        && piece_shows(&book, slot, 3, 31, 103);
    let id = book.lend(slot);
    Ok(queued && come_oldest_first(&mut book, id))
}

#[test]
fn an_item_of_four_buffers_is_released_oldest_first(rt: HostRuntime) {
    assert!(rt; matches!(is_released_in_turn(rt.alloc()), Ok(true)));
}

/// Takes the first buffer of an item of several in the queue, and tells whether it is this one, and whole. It is away then, and the others
/// are in the queue still.
fn takes_first(book: &mut BufferBook, slot: Slot, number: u16) -> bool
    requires { IsQueued book.old slot }
    ensures queued { IsTrue result → IsQueued book.new slot }
    ensures away { IsTrue result → IsAway book.new (record { peer = slot.peer; buffer = number }) }
{
    let count = book.pieces(slot);
    if count < 2 {
        return false;
    }
    let Some(buffer) = book.withdraw_next(slot) else {
        return false;
    };
    if buffer.number() != number {
        return false;
    }
    is_whole(&buffer, number as usize)
}

/// Withdraws the first buffer of an item, which then joins the same item, and tells whether it comes last when that is released.
fn joins_again(alloc: Global) -> Result<bool, NoMemory> {
    let slot = Slot { peer: 1, buffer: 2 };
    let mut book = BufferBook::new(alloc, &[(1, 4)])?;
    queue(alloc, &mut book, slot, 24, 10)?;
    join(alloc, &mut book, slot, 0, 25, 11)?;
    if !takes_first(&mut book, slot, 2) {
        return Ok(false);
    }
    let taken = holds(&book, 1, 1, 0);
    join(alloc, &mut book, slot, 2, 26, 12)?;
    let joined = holds(&book, 1, 2, 0)
        && piece_shows(&book, slot, 0, 25, 11)
        && piece_shows(&book, slot, 1, 26, 12);
    let id = book.lend(slot);
    Ok(
        taken
            && joined
            && gives(&mut book, id, 0, false)
            && gives(&mut book, id, 2, true)
            && holds(&book, 1, 0, 0)
            && book.lent_bytes(id).is_err(),
    )
}

#[test]
fn a_withdrawn_buffer_joins_its_item_again(rt: HostRuntime) {
    assert!(rt; matches!(joins_again(rt.alloc()), Ok(true)));
}
