ghost use Rattle.lane_end.specs.PlainLane.{AreOneLane};

use crate::deeds::{Deed, Lane, receives, sends};
use Deed::{Free, Look, LookBack, Put, PutLong, Shuttle, Take, TakeLong, TakeTwo};
use lane_end::{LaneFault, PlainRecv, PlainSend, ends_stay_one_lane, plain_lane, shuttle};
use std::alloc::Global;

/// The two ends of one plain lane.
#[derive(Drop)]
pub struct Pair {
    pub send: PlainSend,
    pub recv: PlainRecv,
    ghost lane: { AreOneLane send recv },
}

impl Pair {
    pub fn new(alloc: Global, size: u32) -> Result<Pair, LaneFault> {
        match plain_lane(alloc, size) {
            Err(fault) => Err(fault),
            Ok((send, recv)) => Ok(Pair { send, recv }),
        }
    }

    fn sends(&mut self, deed: Deed) -> u32 {
        ends_stay_one_lane();
        sends(&mut self.send, deed)
    }

    fn receives(&mut self, deed: Deed) -> u32 {
        ends_stay_one_lane();
        receives(&mut self.recv, deed)
    }
}

impl Lane for Pair {
    fn does(&mut self, deed: Deed) -> u32 {
        match deed {
            Put(_) | PutLong | LookBack | Free => self.sends(deed),
            Take(_) | TakeLong | TakeTwo | Look => self.receives(deed),
            Shuttle => {
                shuttle(&mut self.send, &mut self.recv);
                0
            }
        }
    }
}
