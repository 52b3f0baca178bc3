ghost use Rattle.std.specs.Prelude.{◌≡◌, ◌≤◌, ◌+◌, ◌∷◌, [], length, Contains};
ghost use Rattle.mc_base.specs.Limits.{buffer_size};
ghost use Rattle.lane_end.specs.Numbers.{AreApart};
ghost use Rattle.lane_end.specs.ReceiveMoves.{Gave};
ghost use Rattle.lane_end.specs.ReceiverContract.{without};
ghost use Rattle.door_bell.specs.Shown.{IsRingerOf, having_rung};

use crate::bell::Bell;
use crate::ringer::Ringer;
use lane_end::RecvEnd;
use mc_base::Buffer;

/// A receiving end that rings a bell after each buffer given back. All else is the end inside.
#[derive(Drop)]
pub struct BellRecv<'a, R: RecvEnd> {
    pub(crate) inner: R,
    ringer: Ringer,
    on: &'a Bell,
    ghost of_bell: { IsRingerOf on.now ringer },
}

impl<'a, R: RecvEnd> BellRecv<'a, R> {
    /// Wraps a receiving end with a ringer of a bell.
    pub fn new(inner: R, ringer: Ringer, on: &'a Bell) -> BellRecv<'a, R>
        requires { IsRingerOf on.now ringer }
        ensures inner { result.inner ≡ inner }
        ensures ringer { result.ringer ≡ ringer }
    {
        BellRecv { inner, ringer, on }
    }

    /// Returns the end inside.
    pub fn into_inner(self) -> R
        ensures { result ≡ self.entry.inner }
    {
        self.inner
    }

    /// Rings for a buffer that the end inside has just given back.
    fn ring_for_return(&mut self, number: u16)
        requires given { (before : R) × R.Moved before (Gave number ∷ []) self.old.inner }
        ensures inner { self.new.inner ≡ self.old.inner }
        ensures rung { self.new.ringer ≡ having_rung self.old.ringer }
    {
        self.ringer.ring(self.on);
    }
}

impl<'a, R: RecvEnd> RecvEnd for BellRecv<'a, R> {
    ghost size = { λ r. R.size r.inner };

    ghost shown = { λ r. R.shown r.inner };

    ghost out = { λ r. R.out r.inner };

    ghost Moved = { λ old moves new. R.Moved old.inner moves new.inner };

    ghost none = { λ e. R.none e.inner };

    ghost both = { λ a b c xs ys first then. R.both a.inner b.inner c.inner xs ys first then };

    ghost same_size = { λ a b xs moved. R.same_size a.inner b.inner xs moved };

    fn look(&mut self) -> u32 {
        self.inner.look()
    }

    fn take(&mut self) -> (Buffer, u32) {
        self.inner.take()
    }

    fn give_back(&mut self, buffer: Buffer)
        requires out { Contains (R.out self.old.inner) buffer.number }
        requires wide { length buffer.bytes ≡ buffer_size }
        ensures moved { R.Moved self.old.inner (Gave buffer.number ∷ []) self.new.inner }
        ensures shown { R.shown self.new.inner ≡ R.shown self.old.inner }
        ensures out { R.out self.new.inner ≡ without buffer.number (R.out self.old.inner) }
        ensures apart { AreApart (R.size self.new.inner) (R.out self.new.inner) }
        ensures room { length (R.out self.new.inner) + R.shown self.new.inner ≤ R.size self.new.inner }
        ensures size { R.size self.new.inner ≡ R.size self.old.inner }
        ensures rung { self.new.ringer ≡ having_rung self.old.ringer }
    {
        let number = buffer.number();
        self.inner.give_back(buffer);
        self.ring_for_return(number);
    }
}
