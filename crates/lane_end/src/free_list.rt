ghost use Rattle.std.specs.Prelude.{◌≡◌, ◌≤◌, ◌<◌, ◌+◌, ◌∷◌, [], IfOk, length};
ghost use Rattle.std.specs.VecDeque.{deque_len, deque_capacity};
ghost use Rattle.mc_base.specs.Limits.{buffer_size};
ghost use Rattle.lane_end.specs.Waiting.{Waiting, all_free, all_back_free, first_used, with_back};
ghost use Rattle.lane_end.specs.Held.{numbers_of};
ghost use Rattle.lane_end.specs.Numbers.{all_numbers};

use crate::pool_buffer::PoolBuffer;
use mc_base::Buffer;
use std::alloc::{AllocError, Global};
use std::collections::VecDeque;
use std::marker::Model;

/// The buffers that a sender can still use, in the order in which it will: the free ones, and then those that came back
/// and that no look has shown.
#[derive(Debug, Drop)]
pub(crate) struct FreeList {
    size: u32,
    buffers: VecDeque<PoolBuffer>,
    free: u32,
}

impl Model for FreeList {
    ghost use Rattle.lane_end.specs.Waiting.{Waiting};

    ghost Value = { Waiting };

    ghost use Rattle.lane_end.specs.KeptWaiting.{waiting_of, IsKept};

    ghost view = { waiting_of };

    ghost invariant = { IsKept };
}

impl FreeList {
    /// Makes the list of all buffers of a lane, all free.
    pub fn new(alloc: Global, size: u32) -> Result<FreeList, AllocError>
        requires { size ≤ 256 }
        ensures { IfOk result (λ l. l ≡ all_free size) }
    {
        let buffers = all_buffers(alloc, size)?;
        Ok(FreeList {
            size,
            buffers,
            free: size,
        })
    }

    /// Returns how many buffers are free.
    pub fn len(&self) -> u32
        ensures free { result ≡ length self.now.free }
        ensures room { result ≤ self.now.size }
    {
        self.free
    }

    /// Makes all buffers that came back free, and returns how many there were.
    pub fn look(&mut self) -> u32
        ensures count { result ≡ length self.old.back }
        ensures all { self.new ≡ all_back_free self.old }
    {
        let all = self.buffers.len() as u32;
        let back = all - self.free;
        self.free = all;
        back
    }

    /// Removes and returns the first free buffer.
    pub fn use_first(&mut self) -> Buffer
        requires { 0 < length self.old.free }
        ensures first { self.old.free ≡ result.number ∷ self.new.free }
        ensures rest { self.new ≡ first_used self.old }
        ensures wide { length result.bytes ≡ buffer_size }
    {
        self.free -= 1;
        self.buffers.pop_front().unwrap().into_buffer()
    }

    /// Appends a buffer that came back.
    pub fn add(&mut self, buffer: Buffer)
        requires room { length self.old.free + length self.old.back < self.old.size }
        requires wide { length buffer.bytes ≡ buffer_size }
        ensures { self.new ≡ with_back self.old (buffer.number ∷ []) }
    {
        self.buffers.push_back_reserved(PoolBuffer::new(buffer));
    }

    /// Moves all buffers that came back to the end of the list.
    pub fn add_all(&mut self, buffers: &mut VecDeque<PoolBuffer>)
        requires { length self.old.free + length self.old.back + deque_len buffers.old ≤ self.old.size }
        ensures added { self.new ≡ with_back self.old (numbers_of buffers.old.items) }
        ensures left { buffers.new.items ≡ [] }
        ensures room { deque_capacity buffers.new ≡ deque_capacity buffers.old }
    {
        if !buffers.is_empty() {
            self.buffers.append(buffers).unwrap();
        }
    }
}

// Makes `size` buffers, numbered from 0.
fn all_buffers(alloc: Global, size: u32) -> Result<VecDeque<PoolBuffer>, AllocError>
    requires { size ≤ 256 }
    ensures numbers { IfOk result (λ q. numbers_of q.items ≡ all_numbers size) }
    ensures len { IfOk result (λ q. deque_len q ≡ size) }
    ensures room { IfOk result (λ q. size ≤ deque_capacity q) }
{
    let mut buffers = VecDeque::with_capacity(alloc, size as usize)?;
    for number in 0..size as u16 {
        let Ok(buffer) = Buffer::new(alloc, number) else {
            return Err(AllocError);
        };
        buffers.push_back_reserved(PoolBuffer::new(buffer));
    }
    Ok(buffers)
}
