//! The steps of the available way: the driver offers, and the device fetches.
ghost use Rattle.std.specs.Prelude.{◌≡◌, ◌+◌, ◌<◌, ◌≤◌, length};
ghost use Rattle.shared_words.specs.declared.view.Role.TheVariants.{Driver, Device};
ghost use Rattle.shared_words.specs.declared.view.Staged.TheVariants.{Idle, LengthStored, BothStored, NumberRead};
ghost use Rattle.shared_words.specs.Change.{staging, writing, looking, taking, number_in, len_in};
ghost use Rattle.shared_words.specs.Shown.{IsHalfOf, HoldsNumber, with_view, size_of};

use crate::field::{Field, word_of};
use crate::half::Half;
use crate::kinds::{StoreAvailEntry, StoreDescLen};
use crate::table::RingTable;
use crate::view::Role;
use mc_base::Buffer;

impl RingTable {
    /// Stores the length of an offer in the descriptor of its buffer, which the driver holds.
    pub fn put_len(&self, half: &mut Half, id: u16, len: u32)
        requires driver { IsHalfOf self.now Driver half.old }
        requires idle { half.old.view.staged ≡ Idle }
        requires holds { HoldsNumber half.old id }
        requires fits { len ≤ self.now.ring.width }
        ensures { half.new ≡ with_view (staging (LengthStored id len) half.old.view) half.old }
    {
        let seat = &mut half.seat;
        let word = word_of(self.size, Field::DescLen(id));
        self.board
            .shared
            .store::<StoreDescLen>(seat, word, len as u64);
    }

    /// Stores the number of the offer, whose length was stored, at the next place of the available ring.
    pub fn put_avail(&self, half: &mut Half, id: u16)
        requires driver { IsHalfOf self.now Driver half.old }
        requires stored { half.old.view.staged ≡ LengthStored id (len_in half.old.view.staged) }
        ensures { half.new ≡ with_view (staging (BothStored id (len_in half.old.view.staged)) half.old.view) half.old }
    {
        let word = word_of(self.size, Field::AvailRing(self.place(half.written)));
        self.board
            .shared
            .store::<StoreAvailEntry>(&mut half.seat, word, id as u64);
    }

    /// Stores the available index. The buffer, whose number and length were stored, goes to its slot and is offered.
    pub fn publish_avail(&self, half: &mut Half, buffer: Buffer)
        requires driver { IsHalfOf self.now Driver half.old }
        requires stored { half.old.view.staged ≡ BothStored buffer.number (len_in half.old.view.staged) }
        requires bytes { length buffer.bytes ≡ self.now.ring.width }
        ensures { half.new ≡ with_view (writing (buffer, len_in half.old.view.staged) half.old.view) half.old }
    {
        self.publish(half, Role::Driver, buffer);
    }

    /// Loads the available index: how many offered buffers the device has not fetched yet.
    pub fn look_avail(&self, half: &mut Half) -> u32
        requires device { IsHalfOf self.now Device half.old }
        ensures view { half.new ≡ with_view (looking result half.old.view) half.old }
        ensures shown { half.old.view.shown ≤ half.new.view.shown }
        ensures room { length half.old.view.taken + result ≤ size_of self.now.ring + length half.old.view.written }
        ensures size { result ≤ size_of self.now.ring }
    {
        self.look(half, Role::Device)
    }

    /// Loads the number of the next offered buffer, which was shown and not fetched.
    pub fn read_avail(&self, half: &mut Half) -> u16
        requires device { IsHalfOf self.now Device half.old }
        requires idle { half.old.view.staged ≡ Idle }
        requires shown { length half.old.view.taken < half.old.view.shown }
        ensures view { half.new ≡ with_view (staging (NumberRead result) half.old.view) half.old }
        ensures below { result < size_of self.now.ring }
    {
        self.read(half, Role::Device)
    }

    /// Loads the length of the buffer whose number was read. The buffer comes from its slot and is fetched.
    pub fn fetch_len(&self, half: &mut Half) -> (Buffer, u32)
        requires device { IsHalfOf self.now Device half.old }
        requires read { half.old.view.staged ≡ NumberRead (number_in half.old.view.staged) }
        ensures view { half.new ≡ with_view (taking (result.0, result.1) half.old.view) half.old }
        ensures number { result.0.number ≡ number_in half.old.view.staged }
        ensures fits { result.1 ≤ self.now.ring.width }
        ensures bytes { length result.0.bytes ≡ self.now.ring.width }
        ensures not_held { HoldsNumber half.old result.0.number → ⊥ }
    {
        self.take(half, Role::Device)
    }
}
