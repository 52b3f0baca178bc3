ghost use Rattle.std.specs.Prelude.{◌≡◌, ◌≤◌, length};
ghost use Rattle.std.specs.VecDeque.{deque_len, deque_capacity};
ghost use Rattle.lane_end.specs.RingSender.{RingSender};

use crate::carried::copy;
use crate::ring_half::RingHalf;
use crate::send_end::SendEnd;
use mc_base::Buffer;
use split_ring::Ring;
use std::collections::VecDeque;
use std::marker::Model;

/// A sender over one half of a ring. A put writes an entry, and a look takes all buffers that it shows to have come back.
#[derive(Debug, Drop)]
pub struct RingSend<'a, H: RingHalf> {
    pub(crate) on: &'a Ring,
    pub(crate) half: H,
    /// The free buffers, which its half holds.
    pub(crate) free: VecDeque<Buffer>,
}

impl<'a, H: RingHalf> Model for RingSend<'a, H> {
    ghost use Rattle.std.specs.VecDeque.{deque_capacity};
    ghost use Rattle.lane_end.specs.RingSender.{RingSender};
    ghost use Rattle.lane_end.specs.KeptRing.{sender_with, KeepsFree};

    ghost Value = { RingSender };

    ghost view = { λ s. sender_with H.role (H.end s.half) s.free.items };

    ghost invariant = { λ s. KeepsFree s.on.now (deque_capacity s.free) H.role (H.end s.half) s.free.items };
}

impl<'a, H: RingHalf> RingSend<'a, H> {
    ghost use Rattle.lane_end.specs.RingLane.{IsSender};
    ghost use Rattle.lane_end.specs.Halves.{FreeAreHeld};

    /// Ends the sender and returns its half as it is. The free buffers are dropped.
    pub fn into_half(self) -> H
        ensures half { H.end result ≡ self.entry.half }
        ensures role { self.entry.role ≡ H.role }
        ensures sender { IsSender self.entry }
        ensures free { FreeAreHeld self.entry }
    {
        self.half
    }
}

impl<'a, H: RingHalf> SendEnd for RingSend<'a, H> {
    ghost use Rattle.lane_end.specs.RingSender.{sender_size, RingSends};
    ghost use Rattle.lane_end.specs.RingSenderLaws.{RingSends-none, RingSends-both, RingSends-size};

    ghost size = { sender_size };

    ghost free = { λ s. s.free };

    ghost Moved = { RingSends };

    ghost none = { RingSends-none };

    ghost both = { RingSends-both };

    ghost same_size = { RingSends-size };

    fn free_len(&self) -> u32 {
        self.free.len() as u32
    }

    fn look(&mut self) -> u32 {
        let shown = self.half.look_once(self.on);
        for _ in 0..shown {
            let (buffer, _) = self.half.take_next(self.on);
            self.free.push_back_reserved(buffer);
        }
        shown
    }

    fn put(&mut self, frame: &[u8]) {
        let mut buffer = self.free.pop_front().unwrap();
        copy(frame, buffer.bytes_mut());
        self.half.write(self.on, buffer, frame.len() as u32);
    }
}
