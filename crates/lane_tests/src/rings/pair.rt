//! Both ends of a lane over a ring.
ghost use Rattle.std.specs.Prelude.{◌≡◌, ◌≤◌, vec_capacity};
ghost use Rattle.mc_base.specs.Limits.{buffer_size};
ghost use Rattle.shared_words.specs.declared.view.Role.TheVariants as role;
ghost use Rattle.shared_words.specs.Shape.{IsRingSize};
ghost use Rattle.shared_words.specs.Shown.{size_of};
ghost use Rattle.split_ring.specs.Ends.{new_end, AreHeld, IsSound};
ghost use Rattle.lane_end.specs.RingOpening.{new_buffers};

use crate::deeds::{Deed, Lane, receives, sends};
use Deed::{Free, Look, LookBack, Put, PutLong, Shuttle, Take, TakeLong, TakeTwo};
use lane_end::{AnyRecv, AnySend, ends_stay_of_one_ring, meet_ends, open_queue0, open_queue1};
use mc_base::Buffer;
use split_ring::{Device, Driver, Ring};
use std::marker::Model;

/// The two ends of a lane over one ring.
#[derive(Drop)]
pub struct Pair<'a> {
    send: AnySend<'a>,
    recv: AnyRecv<'a>,
}

impl<'a> Model for Pair<'a> {
    ghost use Rattle.lane_end.specs.AnyLane.{AreEndsOfOneRing};
    ghost use Rattle.lane_end.specs.declared.any.AnySend as sender;
    ghost use Rattle.lane_end.specs.declared.any.AnyRecv as receiver;

    ghost Value = { sender.AnySend × receiver.AnyRecv };

    ghost view = { λ p. (p.send, p.recv) };

    ghost invariant = { λ p. AreEndsOfOneRing p.send p.recv };
}

impl<'a> Pair<'a> {
    /// Opens the lane over a new ring of this queue.
    pub fn open(
        ring: &'a Ring,
        queue: u8,
        driver: Driver,
        device: Device,
        buffers: Vec<Buffer>,
    ) -> Pair<'a>
        requires queue { (ring.now.queue ≡ queue) × (queue ≤ 1) }
        requires size { IsRingSize (size_of ring.now.ring) }
        requires width { ring.now.ring.width ≡ buffer_size }
        requires halves { (driver ≡ new_end ring.now.ring) × (device ≡ new_end ring.now.ring) }
        requires sound { IsSound role.Driver driver × IsSound role.Device device }
        requires buffers { buffers.items ≡ new_buffers ring.now.ring }
        requires held { AreHeld role.Driver driver buffers.items }
        requires room { size_of ring.now.ring ≤ vec_capacity buffers }
    {
        if queue == 0 {
            let Ok((send, recv)) = open_queue0(ring, driver, device, buffers) else {
                unreachable!()
            };
            Pair {
                send: AnySend::Device(send),
                recv: AnyRecv::Driver(recv),
            }
        } else {
            let Ok((send, recv)) = open_queue1(ring, driver, device, buffers) else {
                unreachable!()
            };
            Pair {
                send: AnySend::Driver(send),
                recv: AnyRecv::Device(recv),
            }
        }
    }

    fn sends(&mut self, deed: Deed) -> u32 {
        ends_stay_of_one_ring();
        sends(&mut self.send, deed)
    }

    fn receives(&mut self, deed: Deed) -> u32 {
        ends_stay_of_one_ring();
        receives(&mut self.recv, deed)
    }
}

impl<'a> Lane for Pair<'a> {
    fn does(&mut self, deed: Deed) -> u32 {
        match deed {
            Put(_) | PutLong | LookBack | Free => self.sends(deed),
            Take(_) | TakeLong | TakeTwo | Look => self.receives(deed),
            Shuttle => {
                meet_ends(&mut self.send, &mut self.recv);
                0
            }
        }
    }
}
