ghost use Rattle.lane_end.specs.Meeting.{SeenStays};

use crate::any::{AnyRecv, AnySend};
use crate::meeting::meet_ends;
use crate::plain::shuttle;
use crate::plain_recv::PlainRecv;
use crate::plain_send::PlainSend;
use crate::recv_end::RecvEnd;
use crate::send_end::SendEnd;

/// A sending end that can meet the receiving end of its lane in one call, where both are in one thread.
///
/// A meeting is not a look. In one memory it carries what was put and given back; over a ring each end learns all that the other did.
pub trait MeetsEnd<R: RecvEnd>: SendEnd {
    /// Whether the two are the ends of one lane.
    ghost May: { Self → R → Type 0 };

    /// Whether a meeting of the first two makes them the last two.
    ghost Met: { Self → R → Self → R → Type 0 };

    /// Has the two ends of a lane meet. What is free, shown and out stays.
    fn meet(&mut self, recv: &mut R)
        requires { May self.old recv.old }
        ensures { Met self.old recv.old self.new recv.new };

    /// A meeting leaves what is free, shown and out, and the sizes.
    ghost same_seen: { (a : Self) (b : R) (c : Self) (d : R) → Met a b c d → SeenStays Self.size Self.free R.size R.shown R.out a b c d };

    /// Ends that met are still the ends of one lane.
    ghost still: { (a : Self) (b : R) (c : Self) (d : R) → Met a b c d → May a b → May c d };
}

impl MeetsEnd<PlainRecv> for PlainSend {
    ghost use Rattle.lane_end.specs.PlainLane.{AreOneLane, HasShuttled};
    ghost use Rattle.lane_end.specs.ShuttleLaws.{shuttled-seen, shuttled-still};

    ghost May = { AreOneLane };

    ghost Met = { HasShuttled };

    ghost same_seen = { shuttled-seen };

    ghost still = { shuttled-still };

    fn meet(&mut self, recv: &mut PlainRecv) {
        shuttle(self, recv);
    }
}

impl<'a> MeetsEnd<AnyRecv<'a>> for AnySend<'a> {
    ghost use Rattle.lane_end.specs.AnyLane.{AreEndsOfOneRing, EndsHaveMet};
    ghost use Rattle.lane_end.specs.AnyLaneLaws.{met-seen, met-of-one};

    ghost May = { AreEndsOfOneRing };

    ghost Met = { EndsHaveMet };

    ghost same_seen = { met-seen };

    ghost still = { met-of-one };

    fn meet(&mut self, recv: &mut AnyRecv<'a>) {
        meet_ends(self, recv);
    }
}
