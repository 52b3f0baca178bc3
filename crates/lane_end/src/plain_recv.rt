ghost use Rattle.std.specs.Prelude.{◌≡◌, ◌≤◌, ◌+◌, ◌++◌, [], IfOk, length};
ghost use Rattle.std.specs.VecDeque.{deque_len, deque_capacity};
ghost use Rattle.lane_end.specs.PlainReceiver.{Receiver};
ghost use Rattle.lane_end.specs.PlainLane.{new_receiver};

use crate::inbox::Inbox;
use crate::pool_buffer::PoolBuffer;
use crate::recv_end::RecvEnd;
use mc_base::Buffer;
use std::alloc::{AllocError, Global};
use std::collections::VecDeque;
use std::marker::Model;

/// A receiver in the same memory as its sender. Its looks show the frames that a shuttle has carried.
#[derive(Debug, Drop)]
pub struct PlainRecv {
    pub(crate) inbox: Inbox,
    /// The buffers given back and not yet shuttled.
    pub(crate) given: VecDeque<PoolBuffer>,
}

impl Model for PlainRecv {
    ghost use Rattle.lane_end.specs.PlainReceiver.{Receiver};

    ghost Value = { Receiver };

    ghost use Rattle.lane_end.specs.KeptReceiver.{receiver_of, IsKept};

    ghost view = { receiver_of };

    ghost invariant = { IsKept };
}

impl PlainRecv {
    pub(crate) fn new(alloc: Global, size: u32) -> Result<PlainRecv, AllocError>
        requires { size ≤ 256 }
        ensures { IfOk result (λ r. r ≡ new_receiver size) }
    {
        let inbox = Inbox::new(alloc, size)?;
        let given = VecDeque::with_capacity(alloc, size as usize)?;
        Ok(PlainRecv { inbox, given })
    }
}

impl RecvEnd for PlainRecv {
    ghost use Rattle.std.specs.Prelude.{refl};
    ghost use Rattle.lane_end.specs.PlainReceiver.{Receives, MayReceive, receiver_after};
    ghost use Rattle.lane_end.specs.MoveLaws.{Lead-append};
    ghost use Rattle.lane_end.specs.PlainLaws.{Receives-size};

    ghost size = { λ r. r.size };

    ghost shown = { λ r. r.shown };

    ghost out = { λ r. r.out };

    ghost Moved = { Receives };

    ghost none = { λ r. refl };

    ghost both = { λ a b c xs ys first then. Lead-append MayReceive receiver_after a b c xs ys first then };

    ghost same_size = { Receives-size };

    fn look(&mut self) -> u32 {
        self.inbox.look()
    }

    fn take(&mut self) -> (Buffer, u32) {
        let carried = self.inbox.take();
        (carried.buffer, carried.len)
    }

    fn give_back(&mut self, buffer: Buffer) {
        self.inbox.strike(buffer.number());
        self.given.push_back_reserved(PoolBuffer::new(buffer));
    }
}
