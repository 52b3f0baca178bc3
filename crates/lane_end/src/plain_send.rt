ghost use Rattle.std.specs.Prelude.{◌≡◌, ◌≤◌, ◌+◌, ◌++◌, [], IfOk, length};
ghost use Rattle.std.specs.VecDeque.{deque_len, deque_capacity};
ghost use Rattle.lane_end.specs.PlainSender.{Sender};
ghost use Rattle.lane_end.specs.PlainLane.{new_sender};

use crate::carried::Carried;
use crate::free_list::FreeList;
use crate::send_end::SendEnd;
use std::alloc::{AllocError, Global};
use std::collections::VecDeque;
use std::marker::Model;

/// A sender in the same memory as its receiver. The frames that it puts arrive once a shuttle has carried them.
#[derive(Debug, Drop)]
pub struct PlainSend {
    pub(crate) waiting: FreeList,
    /// The frames put and not yet shuttled.
    pub(crate) put: VecDeque<Carried>,
}

impl Model for PlainSend {
    ghost use Rattle.lane_end.specs.PlainSender.{Sender};

    ghost Value = { Sender };

    ghost use Rattle.lane_end.specs.KeptSender.{sender_of, IsKept};

    ghost view = { sender_of };

    ghost invariant = { IsKept };
}

impl PlainSend {
    pub(crate) fn new(alloc: Global, size: u32) -> Result<PlainSend, AllocError>
        requires { size ≤ 256 }
        ensures { IfOk result (λ s. s ≡ new_sender size) }
    {
        let waiting = FreeList::new(alloc, size)?;
        let put = VecDeque::with_capacity(alloc, size as usize)?;
        Ok(PlainSend { waiting, put })
    }
}

impl SendEnd for PlainSend {
    ghost use Rattle.std.specs.Prelude.{refl};
    ghost use Rattle.lane_end.specs.PlainSender.{Sends, MaySend, sender_after};
    ghost use Rattle.lane_end.specs.MoveLaws.{Lead-append};
    ghost use Rattle.lane_end.specs.PlainLaws.{Sends-size};

    ghost size = { λ s. s.size };

    ghost free = { λ s. s.free };

    ghost Moved = { Sends };

    ghost none = { λ s. refl };

    ghost both = { λ a b c xs ys first then. Lead-append MaySend sender_after a b c xs ys first then };

    ghost same_size = { Sends-size };

    fn free_len(&self) -> u32 {
        self.waiting.len()
    }

    fn look(&mut self) -> u32 {
        self.waiting.look()
    }

    fn put(&mut self, frame: &[u8]) {
        let buffer = self.waiting.use_first();
        self.put.push_back_reserved(Carried::load(buffer, frame));
    }
}
