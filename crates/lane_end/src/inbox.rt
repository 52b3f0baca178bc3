ghost use Rattle.std.specs.Prelude.{◌≡◌, ◌≤◌, ◌<◌, ◌+◌, ◌∷◌, [], IfOk, IsSome, length, vec_capacity, position, slice_get, Contains, ◌==◌};
ghost use Rattle.std.specs.VecDeque.{deque_len, deque_capacity};
ghost use Rattle.lane_end.specs.Arrived.{Arrived, none_arrived, all_shown, first_taken, without_out, with_frames};
ghost use Rattle.lane_end.specs.ReceiverContract.{without};
ghost use Rattle.lane_end.specs.Held.{frame_of, frames_of};

use crate::carried::Carried;
use std::alloc::{AllocError, Global};
use std::collections::VecDeque;
use std::marker::Model;

/// The frames that came and were not taken, the oldest first, and the numbers of the buffers that are out.
#[derive(Debug, Drop)]
pub(crate) struct Inbox {
    size: u32,
    frames: VecDeque<Carried>,
    shown: u32,
    out: Vec<u16>,
}

impl Model for Inbox {
    ghost use Rattle.lane_end.specs.Arrived.{Arrived};

    ghost Value = { Arrived };

    ghost use Rattle.lane_end.specs.KeptArrived.{arrived_of, IsKept};

    ghost view = { arrived_of };

    ghost invariant = { IsKept };
}

impl Inbox {
    /// Makes an empty inbox with room for all buffers of a lane.
    pub fn new(alloc: Global, size: u32) -> Result<Inbox, AllocError>
        requires { size ≤ 256 }
        ensures { IfOk result (λ i. i ≡ none_arrived size) }
    {
        let frames = VecDeque::with_capacity(alloc, size as usize)?;
        let out = Vec::with_capacity(alloc, size as usize)?;
        Ok(Inbox {
            size,
            frames,
            shown: 0,
            out,
        })
    }

    /// Shows all frames that came, and returns how many there are.
    pub fn look(&mut self) -> u32
        ensures count { result ≡ length self.old.came }
        ensures all { self.new ≡ all_shown self.old }
    {
        self.shown = self.frames.len() as u32;
        self.shown
    }

    /// Takes the oldest frame. Its buffer is then out.
    pub fn take(&mut self) -> Carried
        requires shown { 0 < self.old.shown }
        requires room { length self.old.out < self.old.size }
        ensures first { self.old.came ≡ frame_of result ∷ self.new.came }
        ensures rest { self.new ≡ first_taken self.old result.buffer.number }
    {
        let carried = self.frames.pop_front().unwrap();
        self.shown -= 1;
        self.out.push_reserved(carried.buffer.number());
        carried
    }

    /// Removes the number of a buffer that is no longer out.
    pub fn strike(&mut self, number: u16)
        requires { Contains self.old.out number }
        ensures { self.new ≡ without_out self.old number }
    {
        strike(&mut self.out, number);
    }

    /// Appends a frame that came.
    pub fn add(&mut self, carried: Carried)
        requires { length self.old.came < self.old.size }
        ensures { self.new ≡ with_frames self.old (frame_of carried ∷ []) }
    {
        self.frames.push_back_reserved(carried);
    }

    /// Moves all frames that came to the end of the inbox.
    pub fn add_all(&mut self, frames: &mut VecDeque<Carried>)
        requires { length self.old.came + deque_len frames.old ≤ self.old.size }
        ensures added { self.new ≡ with_frames self.old (frames_of frames.old.items) }
        ensures left { frames.new.items ≡ [] }
        ensures room { deque_capacity frames.new ≡ deque_capacity frames.old }
    {
        if !frames.is_empty() {
            self.frames.append(frames).unwrap();
        }
    }
}

// Removes a number from a list. A linear search will do: the list has at most 256 numbers, one for each buffer of a lane.
fn strike(numbers: &mut Vec<u16>, number: u16)
    requires { Contains numbers.old.items number }
    ensures rest { numbers.new.items ≡ without number numbers.old.items }
    ensures room { vec_capacity numbers.new ≡ vec_capacity numbers.old }
{
    let at = place_of(numbers.as_slice(), number).unwrap();
    numbers.remove(at);
}

fn place_of(numbers: &[u16], number: u16) -> Option<usize>
    ensures place { result ≡ position (λ n. n == number) numbers.now }
    ensures found { Contains numbers.now number → IsSome result }
{
    numbers.iter().position(|n| *n == number)
}
