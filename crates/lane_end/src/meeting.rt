//! What the two ends of a lane over one ring know of each other.

ghost use Rattle.std.specs.Prelude.{List};
ghost use Rattle.shared_words.specs.Shown.{TableShown};
ghost use Rattle.split_ring.specs.Finished.{FinishedRing};
ghost use Rattle.lane_end.specs.SendMoves.{SendMove};
ghost use Rattle.lane_end.specs.ReceiveMoves.{ReceiveMove};
ghost use Rattle.lane_end.specs.AnySender as sending;
ghost use Rattle.lane_end.specs.AnyReceiver as receiving;
ghost use Rattle.lane_end.specs.RingSender.{RingSender};
ghost use Rattle.lane_end.specs.RingReceiver.{RingReceiver};
ghost use Rattle.lane_end.specs.RingLane.{AreOfOneRing, HaveMet, IsSender, IsReceiver, IsFinishedLane, IsRingLane};
ghost use Rattle.lane_end.specs.AnyLane.{AreEndsOfOneRing, EndsHaveMet};
ghost use Rattle.lane_end.specs.ExactLooks.{ReceivesExactly, SendsExactly};

use crate::any::{AnyRecv, AnySend};
use crate::opening::{DeviceRecv, DeviceSend, DriverRecv, DriverSend};

/// Lets the two ends of a lane over one ring meet: each then knows all that the other did. A meeting is not a look: it does not
/// change what is free, shown or out. The two must be the ends of one ring.
pub fn meet_ends(send: &mut AnySend<'_>, recv: &mut AnyRecv<'_>)
    requires { AreEndsOfOneRing send.old recv.old }
    ensures met { EndsHaveMet send.old recv.old send.new recv.new }
    ensures still { AreEndsOfOneRing send.new recv.new }
{
    match send {
        AnySend::Driver(send) => match recv {
            AnyRecv::Device(recv) => meet_queue1(send, recv),
            _ => unreachable!(),
        },
        AnySend::Device(send) => match recv {
            AnyRecv::Driver(recv) => meet_queue0(send, recv),
            _ => unreachable!(),
        },
        AnySend::Plain(_) => unreachable!(),
    }
}

fn meet_queue1(send: &mut DriverSend<'_>, recv: &mut DeviceRecv<'_>)
    requires { AreOfOneRing send.old recv.old }
    ensures { HaveMet send.old recv.old send.new recv.new }
{
    send.on.meet(&mut send.half, &mut recv.half);
}

fn meet_queue0(send: &mut DeviceSend<'_>, recv: &mut DriverRecv<'_>)
    requires { AreOfOneRing send.old recv.old }
    ensures { HaveMet send.old recv.old send.new recv.new }
{
    recv.on.meet(&mut recv.half, &mut send.half);
}

/// Shows that the ends of one ring remain its ends whatever moves each of them makes, so they can meet again.
pub fn ends_stay_of_one_ring()
    ensures { (a b : AnySend) (c d : AnyRecv) (xs : List SendMove) (ys : List ReceiveMove) → AreEndsOfOneRing a c → sending.AnySends a xs b → receiving.AnyReceives c ys d → AreEndsOfOneRing b d }
{}

/// Shows what is known of the two ends of a lane once their ring is finished: the same as after a meeting.
pub fn finished_ends_are_one_lane()
    ensures { (ring : TableShown) (s : RingSender) (r : RingReceiver) (closed : FinishedRing) → AreOfOneRing s r → IsSender s → IsReceiver r → IsFinishedLane ring s r closed → IsRingLane s r }
{}

/// Shows that between two meetings in which the other end did nothing, each look shows all there is to show, and the frames
/// taken are the oldest of those not taken before.
pub fn looks_between_meetings_are_exact()
    ensures receives { ReceivesExactly }
    ensures sends { SendsExactly }
{}
