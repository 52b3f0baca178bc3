//! How a ring ends.
ghost use Rattle.std.specs.Prelude.{◌≡◌, ◌≤◌, [], vec_capacity};
ghost use Rattle.std.specs.Slots.{slots_items, slots_len, IsFull};
ghost use Rattle.shared_words.specs.declared.view.Role.TheVariants.{Driver, Device};
ghost use Rattle.shared_words.specs.declared.view.Staged.TheVariants.{Idle};
ghost use Rattle.shared_words.specs.Shown.{IsHalfOf, shape_of};
ghost use Rattle.shared_words.specs.Closed.{IsClosed};

use crate::half::Half;
use crate::kinds::{Pass, Unite};
use crate::table::RingTable;
use atomic_table::Closed;
use mc_base::Buffer;
use std::alloc::Global;

/// What is left of a table that no thread shares any more.
#[derive(Drop)]
pub struct ClosedTable {
    /// Its words, in their order.
    pub words: Vec<u64>,
    /// For each number whose buffer is in the ring, that buffer. For any other `None`, which no clause says: the buffer is with
    /// whoever holds it.
    pub home: Vec<Option<Buffer>>,
}

fn copy_words(
    closed: &Closed<Option<Buffer>, Global>,
    count: usize,
    mut words: Vec<u64>,
) -> Vec<u64>
    requires full { IsFull closed.now.words × (slots_len closed.now.words ≡ count) }
    requires room { (words.items ≡ []) × (count ≤ vec_capacity words) }
    ensures { result.items ≡ slots_items closed.now.words }
{
    for i in 0..count {
        words.push_reserved(closed.word(i));
    }
    words
}

fn take_slots(
    mut closed: Closed<Option<Buffer>, Global>,
    count: usize,
    mut home: Vec<Option<Buffer>>,
) -> Vec<Option<Buffer>>
    requires full { IsFull closed.slots × (slots_len closed.slots ≡ count) }
    requires room { (home.items ≡ []) × (count ≤ vec_capacity home) }
    ensures { result.items ≡ slots_items closed.slots }
{
    for i in 0..count {
        home.push_reserved(closed.take(i));
    }
    closed.free();
    home
}

impl RingTable {
    /// Ends the ring. Nothing is staged in its halves, which are of this table.
    pub fn close(self, driver: Half, device: Half) -> ClosedTable
        requires driver { IsHalfOf self Driver driver }
        requires device { IsHalfOf self Device device }
        requires idle { (driver.view.staged ≡ Idle) × (device.view.staged ≡ Idle) }
        ensures { IsClosed (shape_of self) driver.view device.view result.words.items result.home.items }
    {
        let RingTable {
            board,
            size,
            queue: _,
            words,
            home,
        } = self;
        let Half {
            mut seat,
            written: _,
            taken: _,
            read: _,
        } = driver;
        let Half {
            seat: mut old,
            written: _,
            taken: _,
            read: _,
        } = device;
        let passed = board.shared.split_seat::<Pass>(&mut old);
        board.shared.join_seat::<Unite>(&mut seat, passed);
        let closed = board.close_with(seat);
        let words = copy_words(&closed, 7 * size as usize + 4, words);
        let home = take_slots(closed, size as usize, home);
        ClosedTable { words, home }
    }
}
