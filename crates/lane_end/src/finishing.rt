//! Finishing a lane over a ring once its ends are done.

ghost use Rattle.lane_end.specs.Halves.{IsRingSend, IsRingRecv, SendLeaves, RecvLeaves, AreHalvesOf, AreFinished};
ghost use Rattle.lane_end.specs.LaneRun.{AreLaneRuns, HeldByEnds, RunsLeaveHalves};

use crate::any::{AnyRecv, AnySend};
use split_ring::{Closed, Device, Driver, Ring};

/// The half of a ring that is left when a sender ends. It does not borrow the ring.
#[derive(Debug, Drop)]
pub enum SendHalf {
    /// The driver's half, of queue 1.
    Driver(Driver),
    /// The device's half, of queue 0.
    Device(Device),
}

/// The half of a ring that is left when a receiver ends. It does not borrow the ring.
#[derive(Debug, Drop)]
pub enum RecvHalf {
    /// The driver's half, of queue 0.
    Driver(Driver),
    /// The device's half, of queue 1.
    Device(Device),
}

impl<'a> AnySend<'a> {
    /// Ends a sender over a ring and returns its half as it is. The free buffers are dropped. A plain sender has no half.
    pub fn into_half(self) -> SendHalf
        requires { IsRingSend self }
        ensures { SendLeaves self.entry result }
    {
        match self {
            AnySend::Driver(end) => SendHalf::Driver(end.into_half()),
            AnySend::Device(end) => SendHalf::Device(end.into_half()),
            AnySend::Plain(_) => unreachable!(),
        }
    }
}

impl<'a> AnyRecv<'a> {
    /// Ends a receiver over a ring and returns its half as it is. A plain receiver has no half.
    pub fn into_half(self) -> RecvHalf
        requires { IsRingRecv self }
        ensures { RecvLeaves self.entry result }
    {
        match self {
            AnyRecv::Driver(end) => RecvHalf::Driver(end.into_half()),
            AnyRecv::Device(end) => RecvHalf::Device(end.into_half()),
            AnyRecv::Plain(_) => unreachable!(),
        }
    }
}

/// Finishes the ring of a lane from the halves of its two ends, and returns what is left of it. It allocates nothing.
///
/// Both halves must belong to this ring: in queue 1 the driver's half sends, and in queue 0 the device's. Each end alone knows
/// only its own moves. The finished ring shows how they fit together: which of the frames put were taken, which buffers came
/// back, and where every buffer is (docs/PROFILE.md, "Lanes").
pub fn finish_lane(ring: Ring, send: SendHalf, recv: RecvHalf) -> Closed
    requires halves { AreHalvesOf ring send recv }
    ensures finished { AreFinished ring send recv result }
    ensures run { AreLaneRuns ring send recv result }
    ensures held { HeldByEnds send recv result }
{
    match send {
        SendHalf::Driver(driver) => match recv {
            RecvHalf::Device(device) => ring.finish(driver, device),
            RecvHalf::Driver(_) => unreachable!(),
        },
        SendHalf::Device(device) => match recv {
            RecvHalf::Driver(driver) => ring.finish(driver, device),
            RecvHalf::Device(_) => unreachable!(),
        },
    }
}

/// Shows that the halves of a lane's two ends belong to its ring whatever moves the ends made, so the ring can be finished.
pub fn halves_stay_of_one_ring()
    ensures { RunsLeaveHalves }
{}
