//! Items that are withdrawn from a queue.
ghost use Rattle.std.specs.Prelude.{◌<◌};

use crate::steps::{holds, is_whole, queue};
use buffer_book::{BufferBook, NoMemory, Slot};
use std::alloc::Global;
use std::test::Fail;

/// Queues both buffers of a peer that has two, this one first, and withdraws the other.
fn withdraws_last(alloc: Global, first: u16) -> Result<bool, NoMemory>
    requires { first < 2 }
{
    let one = Slot {
        peer: 1,
        buffer: first,
    };
    let other = Slot {
        peer: 1,
        buffer: 1 - first,
    };
    let mut book = BufferBook::new(alloc, &[(1, 2)])?;
    queue(alloc, &mut book, one, 0, 512)?;
    let slot = queue(alloc, &mut book, other, 24, 488)?;
    Ok(
        takes(&mut book, slot, other.buffer as usize)
            && holds(&book, 1, 1, 0)
            && book.withdraw_next(slot).is_none(),
    )
}

/// Takes the first buffer of a queued item, and tells whether it is this one, and whole.
fn takes(book: &mut BufferBook, slot: Slot, number: usize) -> bool {
    match book.withdraw_next(slot) {
        Some(buffer) => is_whole(&buffer, number),
        None => false,
    }
}

#[test]
fn nothing_is_withdrawn_where_nothing_is_queued(rt: HostRuntime) -> Result<(), Fail> {
    let mut book = BufferBook::new(rt.alloc(), &[(1, 0), (2, 1)])?;
    for (peer, buffer) in [(1, 0), (2, 0), (2, 1), (2, 65535), (7, 0)] {
        assert!(rt;
            book.withdraw_next(Slot { peer, buffer }).is_none(),
            "{peer} {buffer}"
        );
    }
    Ok(())
}

#[test]
fn a_queued_buffer_is_withdrawn(rt: HostRuntime) {
    for first in [0, 1] {
        assert!(rt; matches!(withdraws_last(rt.alloc(), first), Ok(true)));
    }
}
