ghost use Rattle.std.specs.Prelude.{◌≡◌, ◌≤◌, ◌+◌, ◌↔◌, ◌++◌, [], IfOk, IsErrOf, length};
ghost use Rattle.lane_end.specs.Numbers.{IsLaneSize};
ghost use Rattle.lane_end.specs.Loop.{Loop, new_loop};

use crate::carried::Carried;
use crate::fault::LaneFault;
use crate::free_list::FreeList;
use crate::inbox::Inbox;
use crate::plain::is_lane_size;
use crate::recv_end::RecvEnd;
use crate::send_end::SendEnd;
use mc_base::Buffer;
use std::alloc::Global;
use std::marker::Model;

/// A lane from a domain to itself, which is both ends at once. Its looks show every frame put and every buffer given back.
#[derive(Debug, Drop)]
pub struct LoopLane {
    waiting: FreeList,
    inbox: Inbox,
}

impl Model for LoopLane {
    ghost use Rattle.lane_end.specs.Loop.{Loop};

    ghost Value = { Loop };

    ghost use Rattle.lane_end.specs.KeptLoop.{loop_of, IsKept};

    ghost view = { loop_of };

    ghost invariant = { IsKept };
}

impl LoopLane {
    /// Makes a lane of `size` buffers, all free. All the memory that it will need is allocated here.
    ///
    /// # Errors
    ///
    /// `Size` where the size is not from 1 to 256, and else `NoMemory` where an allocation fails.
    pub fn new(alloc: Global, size: u32) -> Result<LoopLane, LaneFault>
        ensures size_refused { IsErrOf result LaneFault.Size ↔ (IsLaneSize size → ⊥) }
        ensures size { IfOk result (λ _. IsLaneSize size) }
        ensures lane { IfOk result (λ l. l ≡ new_loop size) }
    {
        if !is_lane_size(size) {
            return Err(LaneFault::Size);
        }
        let waiting = FreeList::new(alloc, size)?;
        let inbox = Inbox::new(alloc, size)?;
        Ok(LoopLane { waiting, inbox })
    }
}

impl SendEnd for LoopLane {
    ghost use Rattle.std.specs.Prelude.{refl};
    ghost use Rattle.lane_end.specs.Loop.{LoopSends, MayLoopSend, loop_after_send};
    ghost use Rattle.lane_end.specs.MoveLaws.{Lead-append};
    ghost use Rattle.lane_end.specs.PlainLaws.{LoopSends-size};

    ghost size = { λ l. l.size };

    ghost free = { λ l. l.free };

    ghost Moved = { LoopSends };

    ghost none = { λ l. refl };

    ghost both = { λ a b c xs ys first then. Lead-append MayLoopSend loop_after_send a b c xs ys first then };

    ghost same_size = { LoopSends-size };

    fn free_len(&self) -> u32 {
        self.waiting.len()
    }

    fn look(&mut self) -> u32 {
        self.waiting.look()
    }

    fn put(&mut self, frame: &[u8]) {
        let buffer = self.waiting.use_first();
        self.inbox.add(Carried::load(buffer, frame));
    }
}

impl RecvEnd for LoopLane {
    ghost use Rattle.std.specs.Prelude.{refl};
    ghost use Rattle.lane_end.specs.Loop.{LoopReceives, MayLoopReceive, loop_after_receive};
    ghost use Rattle.lane_end.specs.MoveLaws.{Lead-append};
    ghost use Rattle.lane_end.specs.PlainLaws.{LoopReceives-size};

    ghost size = { λ l. l.size };

    ghost shown = { λ l. l.shown };

    ghost out = { λ l. l.out };

    ghost Moved = { LoopReceives };

    ghost none = { λ l. refl };

    ghost both = { λ a b c xs ys first then. Lead-append MayLoopReceive loop_after_receive a b c xs ys first then };

    ghost same_size = { LoopReceives-size };

    fn look(&mut self) -> u32 {
        self.inbox.look()
    }

    fn take(&mut self) -> (Buffer, u32) {
        let carried = self.inbox.take();
        (carried.buffer, carried.len)
    }

    fn give_back(&mut self, buffer: Buffer) {
        self.inbox.strike(buffer.number());
        self.waiting.add(buffer);
    }
}
