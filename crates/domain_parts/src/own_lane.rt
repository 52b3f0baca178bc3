//! The lane from the domain to itself. Its buffers are the domain's pool.

ghost use Rattle.std.specs.Prelude.{◌≡◌, ◌≤◌, IfOk};
ghost use Rattle.lane_end.specs.Loop.{new_loop};

use crate::peer_lane::PeerLane;
use lane_end::{LoopLane, RecvEnd, SendEnd};
use mc_base::{Buffer, NoMemory};
use std::alloc::Global;

/// Makes the lane of a domain to itself, of 1 to 256 buffers. `NoMemory` is the only error.
pub fn own_lane(alloc: Global, pool: u32) -> Result<LoopLane, NoMemory>
    requires some { 1 ≤ pool }
    requires most { pool ≤ 256 }
    ensures { IfOk result (λ l. l ≡ new_loop pool) }
{
    let Ok(lane) = LoopLane::new(alloc, pool) else {
        return Err(NoMemory);
    };
    Ok(lane)
}

impl PeerLane for LoopLane {
    ghost use Rattle.std.specs.Prelude.{refl};
    ghost use Rattle.domain_parts.specs.LoopMoved.{LoopMoved, LoopMoved-both, LoopMoved-size};
    ghost use Rattle.domain_parts.specs.Ends.{loop_seen};

    ghost seen = { loop_seen };

    ghost Moved = { LoopMoved };

    ghost none = { λ l. refl };

    ghost both = { LoopMoved-both };

    ghost same_size_to = { LoopMoved-size };

    ghost same_size_from = { LoopMoved-size };

    fn free_len(&self) -> u32 {
        SendEnd::free_len(self)
    }

    fn look_back(&mut self) -> u32 {
        SendEnd::look(self)
    }

    fn put(&mut self, frame: &[u8]) {
        SendEnd::put(self, frame);
    }

    fn look_ahead(&mut self) -> u32 {
        RecvEnd::look(self)
    }

    fn take(&mut self) -> (Buffer, u32) {
        RecvEnd::take(self)
    }

    fn give_back(&mut self, buffer: Buffer) {
        RecvEnd::give_back(self, buffer);
    }
}
