ghost use Rattle.std.specs.Prelude.{◌≡◌};
ghost use Rattle.lane_end.specs.RingReceiver.{RingReceiver};

use crate::recv_end::RecvEnd;
use crate::ring_half::RingHalf;
use mc_base::Buffer;
use split_ring::Ring;
use std::marker::Model;

/// A receiver over one half of a ring. A take takes the half's next entry, and a buffer given back is written to the ring.
#[derive(Debug, Drop)]
pub struct RingRecv<'a, H: RingHalf> {
    pub(crate) on: &'a Ring,
    pub(crate) half: H,
    /// How many frames its looks showed that it has not taken. A meeting may show more to its half.
    pub(crate) shown: u32,
}

impl<'a, H: RingHalf> Model for RingRecv<'a, H> {
    ghost use Rattle.lane_end.specs.RingReceiver.{RingReceiver};
    ghost use Rattle.lane_end.specs.KeptRing.{receiver_with, KeepsReceiver};

    ghost Value = { RingReceiver };

    ghost view = { λ r. receiver_with H.role (H.end r.half) r.shown };

    ghost invariant = { λ r. KeepsReceiver r.on.now (receiver_with H.role (H.end r.half) r.shown) };
}

impl<'a, H: RingHalf> RingRecv<'a, H> {
    ghost use Rattle.lane_end.specs.RingLane.{IsReceiver};
    ghost use Rattle.lane_end.specs.Halves.{OutAreHeld};

    /// Ends the receiver and returns its half as it is.
    pub fn into_half(self) -> H
        ensures half { H.end result ≡ self.entry.half }
        ensures role { self.entry.role ≡ H.role }
        ensures receiver { IsReceiver self.entry }
        ensures out { OutAreHeld self.entry }
    {
        self.half
    }
}

impl<'a, H: RingHalf> RecvEnd for RingRecv<'a, H> {
    ghost use Rattle.lane_end.specs.RingReceiver.{receiver_size, out_at, RingReceives};
    ghost use Rattle.lane_end.specs.RingReceiverLaws.{RingReceives-none, RingReceives-both, RingReceives-size};

    ghost size = { receiver_size };

    ghost shown = { λ r. r.shown };

    ghost out = { out_at };

    ghost Moved = { RingReceives };

    ghost none = { RingReceives-none };

    ghost both = { RingReceives-both };

    ghost same_size = { RingReceives-size };

    fn look(&mut self) -> u32 {
        let shown = self.half.look_once(self.on);
        self.shown = shown;
        shown
    }

    fn take(&mut self) -> (Buffer, u32) {
        self.shown -= 1;
        self.half.take_next(self.on)
    }

    fn give_back(&mut self, buffer: Buffer) {
        self.half.write_back(self.on, buffer);
    }
}
