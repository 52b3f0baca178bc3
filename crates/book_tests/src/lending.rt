//! Items of one buffer, lent and released.
ghost use Rattle.std.specs.Prelude.{◌≤◌, ◌+◌};
ghost use Rattle.mc_base.specs.Limits.{buffer_size};
ghost use Rattle.buffer_book.specs.Book.{IsAway};

use crate::steps::{give_up, gives_back, holds, is_stretch, lend, lend_first, queue, shows};
use buffer_book::{BufferBook, NoMemory, PacketId, Slot, may_cross_threads};
use std::alloc::Global;
use std::test::Fail;

/// All orders of four.
const ORDERS: [[usize; 4]; 24] = [
    [0, 1, 2, 3],
    [0, 1, 3, 2],
    [0, 2, 1, 3],
    [0, 2, 3, 1],
    [0, 3, 1, 2],
    [0, 3, 2, 1],
    [1, 0, 2, 3],
    [1, 0, 3, 2],
    [1, 2, 0, 3],
    [1, 2, 3, 0],
    [1, 3, 0, 2],
    [1, 3, 2, 0],
    [2, 0, 1, 3],
    [2, 0, 3, 1],
    [2, 1, 0, 3],
    [2, 1, 3, 0],
    [2, 3, 0, 1],
    [2, 3, 1, 0],
    [3, 0, 1, 2],
    [3, 0, 2, 1],
    [3, 1, 0, 2],
    [3, 1, 2, 0],
    [3, 2, 0, 1],
    [3, 2, 1, 0],
];

/// Queues, lends and releases buffer 2 of peer 3, and tells whether it is each time where it must be.
fn goes_round(alloc: Global, start: u32, size: u32) -> Result<bool, NoMemory>
    requires { start + size ≤ buffer_size }
{
    let slot = Slot { peer: 3, buffer: 2 };
    let first = PacketId {
        peer: 3,
        buffer: 2,
        serial: 0,
    };
    let mut book = BufferBook::new(alloc, &[(1, 2), (3, 4)])?;
    let slot = queue(alloc, &mut book, slot, start, size)?;
    let queued = holds(&book, 3, 1, 0) && is_stretch(book.bytes(slot), start, size);
    let id = book.lend(slot);
    let lent = id == first && holds(&book, 3, 0, 1) && shows(&book, id, start, size);
    let released = gives_back(&mut book, id, 2)
        && holds(&book, 1, 0, 0)
        && holds(&book, 3, 0, 0)
        && holds(&book, 7, 0, 0);
    Ok(queued && lent && released)
}

#[test]
fn a_buffer_is_queued_lent_and_released(rt: HostRuntime) -> Result<(), Fail> {
    may_cross_threads();
    for (start, size) in [(24, 0), (24, 488), (0, 512), (512, 0), (7, 1)] {
        assert!(rt; goes_round(rt.alloc(), start, size)?, "{start} {size}");
    }
    Ok(())
}

/// Whether an id is refused, and leaves the one packet of peer 3 lent.
fn is_refused(book: &mut BufferBook, id: PacketId, lent: PacketId) -> bool {
    book.lent_bytes(id).is_err()
        && !give_up(book, id)
        && holds(book, 3, 0, 1)
        && book.lent_bytes(lent).is_ok()
}

/// Whether all ids are refused that differ from that of the one packet.
fn are_refused(book: &mut BufferBook, first: PacketId) -> bool {
    let strange = [
        PacketId { serial: 1, ..first },
        PacketId { buffer: 0, ..first },
        PacketId { buffer: 4, ..first },
        PacketId { peer: 1, ..first },
        PacketId { peer: 7, ..first },
    ];
    for id in &strange {
        if !is_refused(book, *id, first) {
            return false;
        }
    }
    true
}

#[test]
fn an_id_that_is_not_lent_is_refused(rt: HostRuntime) -> Result<(), Fail> {
    let mut book = BufferBook::new(rt.alloc(), &[(1, 2), (3, 4)])?;
    let first = lend(rt.alloc(), &mut book, Slot { peer: 3, buffer: 1 })?;
    assert!(rt; are_refused(&mut book, first));
    Ok(())
}

/// Lends a buffer, releases it and lends it again, and tells whether only the second id is lent then, and released once.
fn is_lent_again(alloc: Global, book: &mut BufferBook, slot: Slot) -> Result<bool, NoMemory>
    requires { IsAway book.old slot }
{
    let old = lend(alloc, book, slot)?;
    if !give_up(book, old) {
        return Ok(false);
    }
    let new = lend(alloc, book, slot)?;
    Ok(
        (old.serial, new.serial) == (0, 1)
            && book.lent_bytes(old).is_err()
            && !give_up(book, old)
            && give_up(book, new)
            && !give_up(book, new),
    )
}

#[test]
fn a_buffer_that_is_lent_again_has_another_id(rt: HostRuntime) -> Result<(), Fail> {
    let slot = Slot { peer: 0, buffer: 1 };
    let mut book = BufferBook::new(rt.alloc(), &[(0, 2)])?;
    assert!(rt; is_lent_again(rt.alloc(), &mut book, slot)?);
    Ok(())
}

/// Whether the four packets of peer 3 are released in this order.
fn are_released(book: &mut BufferBook, ids: &[PacketId], order: &[usize]) -> bool {
    let mut lent = 4u32;
    for place in order {
        let Some(id) = ids.get(*place) else {
            return false;
        };
        if !holds(book, 3, 0, lent) || !gives_back(book, *id, *place) {
            return false;
        }
        lent = lent.saturating_sub(1);
    }
    holds(book, 3, 0, 0)
}

/// The same of a new book.
fn are_lent_and_released(alloc: Global, order: &[usize]) -> Result<bool, NoMemory> {
    let mut book = BufferBook::new(alloc, &[(1, 2), (3, 4)])?;
    let ids = lend_first(alloc, &mut book, 3, 4)?;
    Ok(are_released(&mut book, &ids, order))
}

#[test]
fn buffers_are_released_in_any_order(rt: HostRuntime) -> Result<(), Fail> {
    for (i, order) in ORDERS.iter().enumerate() {
        assert!(rt; are_lent_and_released(rt.alloc(), order)?, "row {i}");
    }
    Ok(())
}

/// Lends all 256 buffers of the last of eight peers, and tells whether each is whole when it is released.
fn are_all_lent(alloc: Global) -> Result<bool, NoMemory> {
    let mut book = BufferBook::new(alloc, &LARGEST)?;
    let ids = lend_first(alloc, &mut book, 7, 256)?;
    let lent = holds(&book, 7, 0, 256) && holds(&book, 0, 0, 0);
    for (number, id) in ids.iter().enumerate() {
        if !gives_back(&mut book, *id, number) {
            return Ok(false);
        }
    }
    Ok(lent && ids.len() == 256 && holds(&book, 7, 0, 0))
}

/// Eight peers, each with as many buffers as a ring or a pool has at most.
const LARGEST: [(u8, u32); 8] = [
    (0, 256),
    (1, 256),
    (2, 256),
    (3, 256),
    (4, 256),
    (5, 256),
    (6, 256),
    (7, 256),
];

#[test]
fn the_largest_book_lends_all_of_a_peer(rt: HostRuntime) {
    assert!(rt; matches!(are_all_lent(rt.alloc()), Ok(true)));
}
