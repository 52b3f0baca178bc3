//! The driver's half.
ghost use Rattle.std.specs.Prelude.{◌≡◌, ◌+◌, ◌<◌, ◌≤◌, IfSome};
ghost use Rattle.shared_words.specs.declared.view.Role.TheVariants as role;
ghost use Rattle.shared_words.specs.Shown.{size_of};
ghost use Rattle.split_ring.specs.Ends.{writes, looks_at, takes, IsLeft, TakesNext, HoldsNumber, HoldsBuffer, held_count, IsSound};

use crate::counts::Counts;
use crate::ring::Ring;
use mc_base::Buffer;
use shared_words::Half;
use std::fmt;
use std::marker::Model;

/// The driver's half of a ring. Contracts see the ring, the lists of what it offered and what it reclaimed, how many
/// returned buffers were shown, and what its looks showed.
#[derive(Drop)]
pub struct Driver {
    pub(crate) half: Half,
    pub(crate) counts: Counts,
    /// Which numbers it holds.
    pub(crate) held: Vec<bool>,
}

impl Model for Driver {
    ghost use Rattle.split_ring.specs.Ends.{End};
    ghost use Rattle.split_ring.specs.Kept.{end_of, IsKept, HasFlags};
    ghost use Rattle.shared_words.specs.declared.view.Role.TheVariants as role;

    ghost Value = { End };

    ghost view = { λ h. end_of h.half };

    ghost invariant = { λ h. IsKept role.Driver h.half h.counts × HasFlags role.Driver h.half h.held.items };
}

impl fmt::Debug for Driver {
    fn fmt<W: fmt::Write>(&self, f: &mut fmt::Formatter<W>) -> fmt::Result {
        f.debug_struct("Driver")
            .field("counts", &self.counts)
            .finish_non_exhaustive()
    }
}

impl Driver {
    /// Offers a buffer that the driver holds, with a length of at most the buffer's. Stores the length in the buffer's
    /// descriptor and the number in `avail.ring[idx % size]`, then `avail.idx` (VIRTIO 1.2, section 2.7.13).
    #[inline(always)]
    pub fn offer(&mut self, on: &Ring, buffer: Buffer, len: u32)
        requires ring { self.old.ring ≡ on.now.ring }
        requires holds { HoldsBuffer role.Driver self.old buffer }
        requires fits { len ≤ self.old.ring.width }
        ensures offered { self.new ≡ writes (buffer, len) self.old }
        ensures sound { IsSound role.Driver self.new }
    {
        let id = buffer.number();
        self.held[id as usize] = false;
        on.table.put_len(&mut self.half, id, len);
        on.table.put_avail(&mut self.half, id);
        on.table.publish_avail(&mut self.half, buffer);
    }

    /// Looks once at `used.idx`, and returns how many returned buffers are not yet reclaimed.
    pub fn look(&mut self, on: &Ring) -> u32
        requires ring { self.old.ring ≡ on.now.ring }
        ensures looked { self.new ≡ looks_at result self.old }
        ensures shown { self.old.shown ≤ self.new.shown }
        ensures room { result + held_count role.Driver self.old ≤ size_of self.old.ring }
        ensures sound { IsSound role.Driver self.new }
    {
        let shown = on.table.look_used(&mut self.half);
        self.counts.look(shown);
        shown
    }

    /// Reclaims the oldest returned buffer that a look or a meeting showed, and returns it with its length. Where none is left
    /// it looks once, and returns `None` exactly where that look showed none.
    #[inline(always)]
    pub fn reclaim(&mut self, on: &Ring) -> Option<(Buffer, u32)>
        requires ring { self.old.ring ≡ on.now.ring }
        ensures reclaimed { TakesNext self.old result self.new }
        ensures shown { self.old.shown ≤ self.new.shown }
        ensures not_held { IfSome result (λ r. HoldsNumber role.Driver self.old r.0.number → ⊥) }
        ensures held { IfSome result (λ r. HoldsBuffer role.Driver self.new r.0) }
        ensures below { IfSome result (λ r. r.0.number < size_of self.old.ring) }
        ensures fits { IfSome result (λ r. r.1 ≤ self.old.ring.width) }
        ensures sound { IsSound role.Driver self.new }
    {
        if self.counts.left == 0 && self.look(on) == 0 {
            return None;
        }
        Some(self.take(on))
    }

    // Reclaims the next buffer, which was shown.
    #[inline(always)]
    fn take(&mut self, on: &Ring) -> (Buffer, u32)
        requires ring { self.old.ring ≡ on.now.ring }
        requires left { IsLeft self.old }
        ensures reclaimed { self.new ≡ takes (result.0, result.1) self.old }
        ensures not_held { HoldsNumber role.Driver self.old result.0.number → ⊥ }
        ensures held { HoldsBuffer role.Driver self.new result.0 }
        ensures below { result.0.number < size_of self.old.ring }
        ensures fits { result.1 ≤ self.old.ring.width }
        ensures sound { IsSound role.Driver self.new }
    {
        self.counts.take();
        let id = on.table.read_used_id(&mut self.half);
        let entry = on.table.reclaim_len(&mut self.half);
        self.held[id as usize] = true;
        entry
    }
}
