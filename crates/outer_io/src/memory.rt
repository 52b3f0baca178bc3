ghost use Rattle.std.specs.Prelude.{◌≡◌, ◌≤◌, ◌<◌, ◌↔◌, ◌++◌, ◌-◌, ◌⊎◌, [], ℕ, Some, IsOk, IsOkAnd, IsErr, IfOk, OnErr, Contains, drop, take, length};
ghost use Rattle.std.specs.Io.KnownBytes.{ReadConsumes, WriteAppends};
ghost use Rattle.outer_io.specs.Faults.{HasCause};
ghost use Rattle.outer_io.specs.Calls.{CountsOne, CountsEnd};
ghost use Rattle.outer_io.specs.Memory.{NoneListed, read_count, after_read, after_failed_read, room_left, write_count, after_write, after_failed_write};

use crate::{Failed, Sink, Source};
use mc_base::NoMemory;
use std::alloc::Global;
use std::marker::Model;

/// Bytes in memory, and a list of the reads that fail. The first read has number 0.
#[derive(Drop)]
pub struct MemSource {
    bytes: Vec<u8>,
    at: usize,
    failing: Vec<u64>,
    step: usize,
    calls: u64,
    faults: u64,
    ends: u64,
}

impl Model for MemSource {
    ghost use Rattle.std.specs.Prelude.{◌≤◌, ◌<◌, drop, vec_len};
    ghost use Rattle.outer_io.specs.Memory.{ReadState};

    ghost Value = { ReadState };

    ghost view = { λ s. record { left = drop s.at s.bytes.items; failing = s.failing.items; step = s.step; calls = s.calls; faults = s.faults; ends = s.ends } };

    ghost invariant = { λ s. (s.at ≤ vec_len s.bytes) × (0 < s.step) };
}

impl MemSource {
    /// Makes a source of these bytes. Its reads fail at the listed calls, and else move at most `step` bytes, 1 or more.
    pub fn new(bytes: Vec<u8>, failing: Vec<u64>, step: usize) -> MemSource
        requires { 0 < step }
        ensures { result ≡ record { left = bytes.items; failing = failing.items; step = step; calls = 0; faults = 0; ends = 0 } }
    {
        MemSource {
            bytes,
            at: 0,
            failing,
            step,
            calls: 0,
            faults: 0,
            ends: 0,
        }
    }
}

impl Source for MemSource {
    ghost rest = { λ s. Some s.left };

    ghost faults = { λ s. s.faults };

    ghost calls = { λ s. Some s.calls };

    ghost ends = { λ s. Some s.ends };

    ghost never_fails = { λ s. NoneListed s.failing s.calls };

    fn read(&mut self, buf: &mut [u8]) -> Result<usize, Failed>
        requires { 0 < length buf.old }
        ensures bound { IfOk result (λ n. n ≤ length buf.new) }
        ensures bytes { ReadConsumes (Some self.old.left) (Some self.new.left) result buf.new }
        ensures cause { HasCause self.old.faults self.new.faults result }
        ensures counted { CountsOne (Some self.old.calls) (Some self.new.calls) }
        ensures ended { CountsEnd (Some self.old.ends) (Some self.new.ends) result }
        ensures sound { NoneListed self.old.failing self.old.calls → IsOk result × NoneListed self.new.failing self.new.calls }
        ensures fails { IsErr result ↔ Contains self.old.failing self.old.calls }
        ensures count { IfOk result (λ n. n ≡ read_count self.old (length buf.old)) }
        ensures after { IfOk result (λ n. self.new ≡ after_read self.old n) }
        ensures after_failure { OnErr result (self.new ≡ after_failed_read self.old) }
        ensures front { IfOk result (λ n. buf.new ≡ take n self.old.left ++ drop n buf.old) }
        ensures untouched { OnErr result (buf.new ≡ buf.old) }
    {
        let fails = self.failing.contains(&self.calls);
        self.calls = self.calls.saturating_add(1);
        if fails {
            self.faults = self.faults.saturating_add(1);
            return Err(Failed);
        }
        let (_, left) = self.bytes.split_at(self.at);
        let count = left.len().min(buf.len()).min(self.step);
        let (piece, _) = left.split_at(count);
        fill_front(buf, piece);
        self.at += count;
        if count == 0 {
            self.ends = self.ends.saturating_add(1);
        }
        Ok(count)
    }
}

/// Writes a piece over the front of a buffer.
fn fill_front(buf: &mut [u8], piece: &[u8])
    requires { length piece.now ≤ length buf.old }
    ensures { buf.new ≡ piece.now ++ drop (length piece.now) buf.old }
{
    buf[..piece.len()].copy_from_slice(piece);
}

/// Bytes written to memory that was reserved, and a list of the writes that fail. The first write has number 0.
#[derive(Drop)]
pub struct MemSink {
    bytes: Vec<u8>,
    room: usize,
    failing: Vec<u64>,
    step: usize,
    calls: u64,
    faults: u64,
}

impl Model for MemSink {
    ghost use Rattle.std.specs.Prelude.{◌≤◌, ◌<◌, vec_len, vec_capacity};
    ghost use Rattle.outer_io.specs.Memory.{WriteState};

    ghost Value = { WriteState };

    ghost view = { λ s. record { written = s.bytes.items; room = s.room; failing = s.failing.items; step = s.step; calls = s.calls; faults = s.faults } };

    ghost invariant = { λ s. (vec_len s.bytes ≤ s.room) × (s.room ≤ vec_capacity s.bytes) × (0 < s.step) };
}

impl MemSink {
    /// Makes a sink with room for `room` bytes, which is reserved here. Its writes fail at the listed calls and where it is
    /// full, and else move at most `step` bytes, 1 or more.
    ///
    /// # Errors
    ///
    /// `NoMemory` where the room cannot be reserved.
    pub fn new(
        alloc: Global,
        failing: Vec<u64>,
        step: usize,
        room: usize,
    ) -> Result<MemSink, NoMemory>
        requires { 0 < step }
        ensures { IfOk result (λ sink. sink ≡ record { written = []; room = room; failing = failing.items; step = step; calls = 0; faults = 0 }) }
    {
        let Ok(bytes) = Vec::with_capacity(alloc, room) else {
            return Err(NoMemory);
        };
        Ok(MemSink {
            bytes,
            room,
            failing,
            step,
            calls: 0,
            faults: 0,
        })
    }

    /// Returns the bytes that were written.
    pub fn written(&self) -> &[u8]
        ensures { result.now ≡ self.now.written }
    {
        &self.bytes
    }
}

impl Sink for MemSink {
    ghost written = { λ s. Some s.written };

    ghost faults = { λ s. s.faults };

    ghost calls = { λ s. Some s.calls };

    ghost takes = { λ s n. NoneListed s.failing s.calls × (n ≤ room_left s) };

    fn write(&mut self, piece: &[u8]) -> Result<usize, Failed>
        requires { 0 < length piece.now }
        ensures bound { IfOk result (λ n. (0 < n) × (n ≤ length piece.now)) }
        ensures bytes { WriteAppends (Some self.old.written) (Some self.new.written) result piece.now }
        ensures cause { HasCause self.old.faults self.new.faults result }
        ensures counted { CountsOne (Some self.old.calls) (Some self.new.calls) }
        ensures room { (n : ℕ) → NoneListed self.old.failing self.old.calls × (n ≤ room_left self.old) → length piece.now ≤ n → IsOkAnd result (λ k. NoneListed self.new.failing self.new.calls × (n - k ≤ room_left self.new)) }
        ensures fails { IsErr result ↔ (Contains self.old.failing self.old.calls ⊎ room_left self.old ≡ 0) }
        ensures count { IfOk result (λ n. n ≡ write_count self.old (length piece.now)) }
        ensures after { IfOk result (λ n. self.new ≡ after_write self.old (take n piece.now)) }
        ensures after_failure { OnErr result (self.new ≡ after_failed_write self.old) }
    {
        let fails = self.failing.contains(&self.calls);
        self.calls = self.calls.saturating_add(1);
        let left = self.room - self.bytes.len();
        if fails || left == 0 {
            self.faults = self.faults.saturating_add(1);
            return Err(Failed);
        }
        let count = left.min(piece.len()).min(self.step);
        let (front, _) = piece.split_at(count);
        self.bytes.extend_from_slice(front).unwrap();
        Ok(count)
    }
}
