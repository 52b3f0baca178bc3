//! The device's half.
ghost use Rattle.std.specs.Prelude.{◌≡◌, ◌+◌, ◌<◌, ◌≤◌, IfSome};
ghost use Rattle.shared_words.specs.declared.view.Role.TheVariants as role;
ghost use Rattle.shared_words.specs.Shown.{size_of};
ghost use Rattle.split_ring.specs.Ends.{writes, looks_at, takes, IsLeft, TakesNext, HoldsNumber, HoldsBuffer, held_count, IsSound};

use crate::counts::Counts;
use crate::ring::Ring;
use mc_base::Buffer;
use shared_words::Half;
use std::fmt;
use std::marker::Model;

/// The device's half of a ring. Contracts see the ring, the lists of what it gave back and what it fetched, how many
/// offered buffers were shown, and what its looks showed.
#[derive(Drop)]
pub struct Device {
    pub(crate) half: Half,
    pub(crate) counts: Counts,
    /// Which numbers it holds.
    pub(crate) held: Vec<bool>,
}

impl Model for Device {
    ghost use Rattle.split_ring.specs.Ends.{End};
    ghost use Rattle.split_ring.specs.Kept.{end_of, IsKept, HasFlags};
    ghost use Rattle.shared_words.specs.declared.view.Role.TheVariants as role;

    ghost Value = { End };

    ghost view = { λ h. end_of h.half };

    ghost invariant = { λ h. IsKept role.Device h.half h.counts × HasFlags role.Device h.half h.held.items };
}

impl fmt::Debug for Device {
    fn fmt<W: fmt::Write>(&self, f: &mut fmt::Formatter<W>) -> fmt::Result {
        f.debug_struct("Device")
            .field("counts", &self.counts)
            .finish_non_exhaustive()
    }
}

impl Device {
    /// Gives back a buffer that the device holds, with a length of at most the buffer's. Stores `used.ring[idx % size]`, its
    /// number and its length, then `used.idx` (VIRTIO 1.2, section 2.7.8).
    #[inline(always)]
    pub fn give(&mut self, on: &Ring, buffer: Buffer, len: u32)
        requires ring { self.old.ring ≡ on.now.ring }
        requires holds { HoldsBuffer role.Device self.old buffer }
        requires fits { len ≤ self.old.ring.width }
        ensures returned { self.new ≡ writes (buffer, len) self.old }
        ensures sound { IsSound role.Device self.new }
    {
        let id = buffer.number();
        self.held[id as usize] = false;
        on.table.put_used_id(&mut self.half, id);
        on.table.put_used_len(&mut self.half, len);
        on.table.publish_used(&mut self.half, buffer);
    }

    /// Looks once at `avail.idx`, and returns how many offered buffers are not yet fetched.
    pub fn look(&mut self, on: &Ring) -> u32
        requires ring { self.old.ring ≡ on.now.ring }
        ensures looked { self.new ≡ looks_at result self.old }
        ensures shown { self.old.shown ≤ self.new.shown }
        ensures room { result + held_count role.Device self.old ≤ size_of self.old.ring }
        ensures sound { IsSound role.Device self.new }
    {
        let shown = on.table.look_avail(&mut self.half);
        self.counts.look(shown);
        shown
    }

    /// Fetches the oldest offered buffer that a look or a meeting showed, and returns it with its length. Where none is left it
    /// looks once, and returns `None` exactly where that look showed none.
    #[inline(always)]
    pub fn fetch(&mut self, on: &Ring) -> Option<(Buffer, u32)>
        requires ring { self.old.ring ≡ on.now.ring }
        ensures fetched { TakesNext self.old result self.new }
        ensures shown { self.old.shown ≤ self.new.shown }
        ensures not_held { IfSome result (λ r. HoldsNumber role.Device self.old r.0.number → ⊥) }
        ensures held { IfSome result (λ r. HoldsBuffer role.Device self.new r.0) }
        ensures below { IfSome result (λ r. r.0.number < size_of self.old.ring) }
        ensures fits { IfSome result (λ r. r.1 ≤ self.old.ring.width) }
        ensures sound { IsSound role.Device self.new }
    {
        if self.counts.left == 0 && self.look(on) == 0 {
            return None;
        }
        Some(self.take(on))
    }

    // Fetches the next buffer, which was shown.
    #[inline(always)]
    fn take(&mut self, on: &Ring) -> (Buffer, u32)
        requires ring { self.old.ring ≡ on.now.ring }
        requires left { IsLeft self.old }
        ensures fetched { self.new ≡ takes (result.0, result.1) self.old }
        ensures not_held { HoldsNumber role.Device self.old result.0.number → ⊥ }
        ensures held { HoldsBuffer role.Device self.new result.0 }
        ensures below { result.0.number < size_of self.old.ring }
        ensures fits { result.1 ≤ self.old.ring.width }
        ensures sound { IsSound role.Device self.new }
    {
        self.counts.take();
        let id = on.table.read_avail(&mut self.half);
        let entry = on.table.fetch_len(&mut self.half);
        self.held[id as usize] = true;
        entry
    }
}
