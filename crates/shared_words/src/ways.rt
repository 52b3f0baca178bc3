//! The steps that each half makes on its own way, and the words of a way.
ghost use Rattle.std.specs.Prelude.{◌≡◌, ◌+◌, ◌%◌, ◌<◌, ◌≤◌, length};
ghost use Rattle.shared_words.specs.declared.view.Staged.TheVariants.{Idle, BothStored, NumberRead};
ghost use Rattle.shared_words.specs.Change.{staging, writing, looking, taking, number_in, len_in};
ghost use Rattle.shared_words.specs.Layout.{word_count};
ghost use Rattle.shared_words.specs.Places.{starts_with};
ghost use Rattle.shared_words.specs.Shown.{IsHalfOf, HoldsNumber, with_view, size_of};
ghost use Rattle.shared_words.specs.Way.{way_of};

use crate::field::{Field, word_of};
use crate::half::Half;
use crate::kinds::{LoadIdx, LoadLen, LoadNumber, PublishIdx};
use crate::table::RingTable;
use crate::view::Role;
use mc_base::Buffer;
use std::mem;

impl RingTable {
    // The word of the index that a half writes.
    #[inline(always)]
    fn idx_word(&self, writer: Role) -> usize
        ensures word { result ≡ (way_of writer (size_of self.now.ring)).idx }
        ensures within { result < word_count (size_of self.now.ring) }
    {
        match writer {
            Role::Driver => word_of(self.size(), Field::AvailIdx),
            Role::Device => word_of(self.size(), Field::UsedIdx),
        }
    }

    // The word of the number in the entry of this count.
    #[inline(always)]
    fn number_word(&self, writer: Role, count: u16) -> usize
        ensures word { result ≡ (way_of writer (size_of self.now.ring)).number (count % size_of self.now.ring) }
        ensures within { result < word_count (size_of self.now.ring) }
    {
        let place = self.place(count);
        match writer {
            Role::Driver => word_of(self.size(), Field::AvailRing(place)),
            Role::Device => word_of(self.size(), Field::UsedId(place)),
        }
    }

    // The word of the length in the entry of this count, whose number is `id`.
    #[inline(always)]
    fn len_word(&self, writer: Role, count: u16, id: u16) -> usize
        requires { id < size_of self.now.ring }
        ensures word { result ≡ (way_of writer (size_of self.now.ring)).len ((way_of writer (size_of self.now.ring)).len_place count id) }
        ensures within { result < word_count (size_of self.now.ring) }
    {
        match writer {
            Role::Driver => word_of(self.size(), Field::DescLen(id)),
            Role::Device => word_of(self.size(), Field::UsedLen(self.place(count))),
        }
    }

    /// Gives the buffer, whose number and length were stored, to its slot, and stores the index that the half writes.
    #[inline(always)]
    pub(crate) fn publish(&self, half: &mut Half, role: Role, buffer: Buffer)
        requires half { IsHalfOf self.now role half.old }
        requires stored { half.old.view.staged ≡ BothStored buffer.number (len_in half.old.view.staged) }
        requires bytes { length buffer.bytes ≡ self.now.ring.width }
        ensures { half.new ≡ with_view (writing (buffer, len_in half.old.view.staged) half.old.view) half.old }
    {
        let id = buffer.number();
        let empty = self
            .board
            .shared
            .exchange(&mut half.seat, id as usize, Some(buffer));
        // It holds nothing that would have to be dropped.
        mem::forget(empty);
        half.written = half.written.wrapping_add(1);
        let word = self.idx_word(role);
        self.board
            .shared
            .store::<PublishIdx>(&mut half.seat, word, half.written as u64);
    }

    /// Loads the index that the other half writes: how many of its entries the half has not taken yet.
    #[inline(always)]
    pub(crate) fn look(&self, half: &mut Half, role: Role) -> u32
        requires half { IsHalfOf self.now role half.old }
        ensures view { half.new ≡ with_view (looking result half.old.view) half.old }
        ensures shown { half.old.view.shown ≤ half.new.view.shown }
        ensures room { length half.old.view.taken + result + starts_with role (size_of self.now.ring) ≤ size_of self.now.ring + length half.old.view.written }
        ensures size { result ≤ size_of self.now.ring }
    {
        let word = self.idx_word(role.other());
        let found = self.board.shared.load::<LoadIdx>(&mut half.seat, word);
        ((found + 65536 - half.taken as u64) % 65536) as u32
    }

    /// Loads the number in the next entry of the other half, which was shown and not taken.
    #[inline(always)]
    pub(crate) fn read(&self, half: &mut Half, role: Role) -> u16
        requires half { IsHalfOf self.now role half.old }
        requires idle { half.old.view.staged ≡ Idle }
        requires shown { length half.old.view.taken < half.old.view.shown }
        ensures view { half.new ≡ with_view (staging (NumberRead result) half.old.view) half.old }
        ensures below { result < size_of self.now.ring }
    {
        let word = self.number_word(role.other(), half.taken);
        let found = self.board.shared.load::<LoadNumber>(&mut half.seat, word) as u16;
        half.read = found;
        found
    }

    /// Loads the length in the entry whose number was read, and takes the buffer from its slot.
    #[inline(always)]
    pub(crate) fn take(&self, half: &mut Half, role: Role) -> (Buffer, u32)
        requires half { IsHalfOf self.now role half.old }
        requires read { half.old.view.staged ≡ NumberRead (number_in half.old.view.staged) }
        ensures view { half.new ≡ with_view (taking (result.0, result.1) half.old.view) half.old }
        ensures number { result.0.number ≡ number_in half.old.view.staged }
        ensures fits { result.1 ≤ self.now.ring.width }
        ensures bytes { length result.0.bytes ≡ self.now.ring.width }
        ensures not_held { HoldsNumber half.old result.0.number → ⊥ }
    {
        let id = half.read;
        let word = self.len_word(role.other(), half.taken, id);
        let len = self.board.shared.load::<LoadLen>(&mut half.seat, word) as u32;
        let got = self
            .board
            .shared
            .exchange(&mut half.seat, id as usize, None);
        half.taken = half.taken.wrapping_add(1);
        let Some(buffer) = got else { unreachable!() };
        (buffer, len)
    }
}
