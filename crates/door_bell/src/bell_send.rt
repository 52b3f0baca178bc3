ghost use Rattle.std.specs.Prelude.{◌≡◌, ◌≤◌, ◌<◌, ◌∷◌, [], length};
ghost use Rattle.mc_base.specs.Limits.{buffer_size};
ghost use Rattle.lane_end.specs.SendMoves.{Sent};
ghost use Rattle.lane_end.specs.SenderContract.{TakesFirst};
ghost use Rattle.door_bell.specs.Shown.{IsRingerOf, having_rung};

use crate::bell::Bell;
use crate::ringer::Ringer;
use lane_end::SendEnd;

/// A sending end that rings a bell after each put. All else is the end inside.
#[derive(Drop)]
pub struct BellSend<'a, S: SendEnd> {
    pub(crate) inner: S,
    ringer: Ringer,
    on: &'a Bell,
    ghost of_bell: { IsRingerOf on.now ringer },
}

impl<'a, S: SendEnd> BellSend<'a, S> {
    /// Wraps a sending end with a ringer of a bell.
    pub fn new(inner: S, ringer: Ringer, on: &'a Bell) -> BellSend<'a, S>
        requires { IsRingerOf on.now ringer }
        ensures inner { result.inner ≡ inner }
        ensures ringer { result.ringer ≡ ringer }
    {
        BellSend { inner, ringer, on }
    }

    /// Returns the end inside.
    pub fn into_inner(self) -> S
        ensures { result ≡ self.entry.inner }
    {
        self.inner
    }

    /// Rings for a frame that the end inside has just put.
    fn ring_for_put(&mut self, frame: &[u8])
        requires put { (before : S) × S.Moved before (Sent frame.now ∷ []) self.old.inner }
        ensures inner { self.new.inner ≡ self.old.inner }
        ensures rung { self.new.ringer ≡ having_rung self.old.ringer }
    {
        self.ringer.ring(self.on);
    }
}

impl<'a, S: SendEnd> SendEnd for BellSend<'a, S> {
    ghost size = { λ s. S.size s.inner };

    ghost free = { λ s. S.free s.inner };

    ghost Moved = { λ old moves new. S.Moved old.inner moves new.inner };

    ghost none = { λ e. S.none e.inner };

    ghost both = { λ a b c xs ys first then. S.both a.inner b.inner c.inner xs ys first then };

    ghost same_size = { λ a b xs moved. S.same_size a.inner b.inner xs moved };

    fn free_len(&self) -> u32 {
        self.inner.free_len()
    }

    fn look(&mut self) -> u32 {
        self.inner.look()
    }

    fn put(&mut self, frame: &[u8])
        requires free { 0 < length (S.free self.old.inner) }
        requires some { 0 < length frame.now }
        requires fits { length frame.now ≤ buffer_size }
        ensures moved { S.Moved self.old.inner (Sent frame.now ∷ []) self.new.inner }
        ensures free { TakesFirst (S.free self.old.inner) (S.free self.new.inner) }
        ensures room { length (S.free self.new.inner) ≤ S.size self.new.inner }
        ensures size { S.size self.new.inner ≡ S.size self.old.inner }
        ensures rung { self.new.ringer ≡ having_rung self.old.ringer }
    {
        self.inner.put(frame);
        self.ring_for_put(frame);
    }
}
