//! The steps of the used way: the device gives back, and the driver reclaims.
ghost use Rattle.std.specs.Prelude.{◌≡◌, ◌+◌, ◌<◌, ◌≤◌, length};
ghost use Rattle.shared_words.specs.declared.view.Role.TheVariants.{Driver, Device};
ghost use Rattle.shared_words.specs.declared.view.Staged.TheVariants.{Idle, NumberStored, BothStored, NumberRead};
ghost use Rattle.shared_words.specs.Change.{staging, writing, looking, taking, number_in, len_in};
ghost use Rattle.shared_words.specs.Shown.{IsHalfOf, HoldsNumber, with_view, size_of};

use crate::field::{Field, word_of};
use crate::half::Half;
use crate::kinds::{StoreUsedId, StoreUsedLen};
use crate::table::RingTable;
use crate::view::Role;
use mc_base::Buffer;

impl RingTable {
    /// Stores the number of a buffer that the device holds at the next place of the used ring.
    pub fn put_used_id(&self, half: &mut Half, id: u16)
        requires device { IsHalfOf self.now Device half.old }
        requires idle { half.old.view.staged ≡ Idle }
        requires holds { HoldsNumber half.old id }
        ensures { half.new ≡ with_view (staging (NumberStored id) half.old.view) half.old }
    {
        let word = word_of(self.size, Field::UsedId(self.place(half.written)));
        self.board
            .shared
            .store::<StoreUsedId>(&mut half.seat, word, id as u64);
    }

    /// Stores the length of the return, whose number was stored.
    pub fn put_used_len(&self, half: &mut Half, len: u32)
        requires device { IsHalfOf self.now Device half.old }
        requires stored { half.old.view.staged ≡ NumberStored (number_in half.old.view.staged) }
        requires fits { len ≤ self.now.ring.width }
        ensures { half.new ≡ with_view (staging (BothStored (number_in half.old.view.staged) len) half.old.view) half.old }
    {
        let word = word_of(self.size, Field::UsedLen(self.place(half.written)));
        self.board
            .shared
            .store::<StoreUsedLen>(&mut half.seat, word, len as u64);
    }

    /// Stores the used index. The buffer, whose number and length were stored, goes to its slot and is returned.
    pub fn publish_used(&self, half: &mut Half, buffer: Buffer)
        requires device { IsHalfOf self.now Device half.old }
        requires stored { half.old.view.staged ≡ BothStored buffer.number (len_in half.old.view.staged) }
        requires bytes { length buffer.bytes ≡ self.now.ring.width }
        ensures { half.new ≡ with_view (writing (buffer, len_in half.old.view.staged) half.old.view) half.old }
    {
        self.publish(half, Role::Device, buffer);
    }

    /// Loads the used index: how many returned buffers the driver has not reclaimed yet.
    pub fn look_used(&self, half: &mut Half) -> u32
        requires driver { IsHalfOf self.now Driver half.old }
        ensures view { half.new ≡ with_view (looking result half.old.view) half.old }
        ensures shown { half.old.view.shown ≤ half.new.view.shown }
        ensures room { length half.old.view.taken + result ≤ length half.old.view.written }
        ensures size { result ≤ size_of self.now.ring }
    {
        self.look(half, Role::Driver)
    }

    /// Loads the number of the next returned buffer, which was shown and not reclaimed.
    pub fn read_used_id(&self, half: &mut Half) -> u16
        requires driver { IsHalfOf self.now Driver half.old }
        requires idle { half.old.view.staged ≡ Idle }
        requires shown { length half.old.view.taken < half.old.view.shown }
        ensures view { half.new ≡ with_view (staging (NumberRead result) half.old.view) half.old }
        ensures below { result < size_of self.now.ring }
    {
        self.read(half, Role::Driver)
    }

    /// Loads the length of the buffer whose number was read. The buffer comes from its slot and is reclaimed.
    pub fn reclaim_len(&self, half: &mut Half) -> (Buffer, u32)
        requires driver { IsHalfOf self.now Driver half.old }
        requires read { half.old.view.staged ≡ NumberRead (number_in half.old.view.staged) }
        ensures view { half.new ≡ with_view (taking (result.0, result.1) half.old.view) half.old }
        ensures number { result.0.number ≡ number_in half.old.view.staged }
        ensures fits { result.1 ≤ self.now.ring.width }
        ensures bytes { length result.0.bytes ≡ self.now.ring.width }
        ensures not_held { HoldsNumber half.old result.0.number → ⊥ }
    {
        self.take(half, Role::Driver)
    }
}
