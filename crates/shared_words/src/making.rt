//! How a ring begins.
ghost use Rattle.std.specs.Prelude.{◌≡◌, ◌≤◌, ◌<◌, ◌↔◌, ℕ, [], map, IfOk, IsTrue, IsErrOf, slice_index, vec_len, vec_capacity};
ghost use Rattle.mc_base.specs.Limits.{ring_limit, shortest_buffer, longest_buffer, IsBufferLength};
ghost use Rattle.shared_words.specs.declared.view.Role.TheVariants.{Driver, Device};
ghost use Rattle.shared_words.specs.Layout.{word_count};
ghost use Rattle.shared_words.specs.Shape.{IsRingSize};
ghost use Rattle.shared_words.specs.RingRule.{new_view};
ghost use Rattle.shared_words.specs.Slots.{numbers_from};
ghost use Rattle.shared_words.specs.Start.{shape, start_word, new_buffer};
ghost use Rattle.shared_words.specs.Shown.{IsHalfOf, size_of};

use crate::fault::RingFault;
use crate::half::Half;
use crate::kinds::{Begin, Part};
use crate::rule::{Board, Shape};
use crate::table::RingTable;
use mc_base::{Buffer, LONGEST_BUFFER, SHORTEST_BUFFER};
use std::alloc::{AllocError, Global};

fn is_ring_size(size: u32) -> bool
    ensures { IsTrue result ↔ IsRingSize size }
{
    [
        2, 4, 8, 16, 32, 64, 128, 256, 512, 1024, 2048, 4096, 8192, 16384, 32768,
    ]
    .contains(&size)
}

fn is_buffer_length(length: u32) -> bool
    ensures { IsTrue result ↔ IsBufferLength length }
{
    length >= SHORTEST_BUFFER && length <= LONGEST_BUFFER && length % SHORTEST_BUFFER == 0
}

// The word i of a ring that has not begun.
fn first_word(queue: u64, size: u64, length: u64, i: u64) -> u64
    requires small { (queue ≤ 1) × (size ≤ ring_limit) × (length ≤ longest_buffer) }
    requires within { i < word_count size }
    ensures { result ≡ start_word (shape queue size length) i }
{
    if i >= 4 * size {
        return 0;
    }
    match i % 4 {
        0 => length * (queue * size + i / 4),
        2 => { if queue == 0 { 2 } else { 0 } }
        _ => 0,
    }
}

fn first_words(alloc: Global, queue: u8, size: u32, length: u32) -> Result<Vec<u64>, AllocError>
    requires { (queue ≤ 1) × (size ≤ ring_limit) × (length ≤ longest_buffer) }
    ensures len { IfOk result (λ v. vec_len v ≡ word_count size) }
    ensures words { IfOk result (λ v. (i : ℕ) → slice_index v.items i ≡ start_word (shape queue size length) i) }
{
    let count = 7 * size as usize + 4;
    let mut words = Vec::with_capacity(alloc, count)?;
    for i in 0..count {
        words.push(first_word(queue as u64, size as u64, length as u64, i as u64))?;
    }
    Ok(words)
}

fn first_buffers(alloc: Global, size: u32, length: u32) -> Result<Vec<Buffer>, AllocError>
    requires size { size ≤ ring_limit }
    requires length { (shortest_buffer ≤ length) × (length ≤ longest_buffer) }
    ensures buffers { IfOk result (λ v. v.items ≡ map (new_buffer length) (numbers_from 0 size)) }
    ensures room { IfOk result (λ v. size ≤ vec_capacity v) }
{
    let mut buffers = Vec::with_capacity(alloc, size as usize)?;
    for id in 0..size as u16 {
        let Ok(buffer) = Buffer::sized(alloc, id, length) else {
            return Err(AllocError);
        };
        buffers.push(buffer)?;
    }
    Ok(buffers)
}

// The table and its halves.
fn begin(
    alloc: Global,
    queue: u8,
    size: u32,
    length: u32,
) -> Result<(RingTable, Half, Half), AllocError>
    requires queue { queue ≤ 1 }
    requires size { IsRingSize size }
    requires length { IsBufferLength length }
    ensures halves { IfOk result (λ r. IsHalfOf r.0 Driver r.1 × IsHalfOf r.0 Device r.2) }
    ensures views { IfOk result (λ r. (r.1.view ≡ new_view length) × (r.2.view ≡ new_view length)) }
    ensures table { IfOk result (λ r. (r.0.queue ≡ queue) × (size_of r.0.ring ≡ size) × (r.0.ring.width ≡ length)) }
{
    let first = first_words(alloc, queue, size, length)?;
    let words = Vec::with_capacity(alloc, first.len())?;
    let home = Vec::with_capacity(alloc, size as usize)?;
    let key = Shape {
        queue,
        size,
        length,
    };
    let (board, mut seat) = Board::vacant(alloc, first.as_slice(), size as usize, &key)?;
    let _zero = board.shared.load::<Begin>(&mut seat, 0);
    let other = board.shared.split_seat::<Part>(&mut seat);
    let table = RingTable {
        board,
        size,
        queue,
        words,
        home,
    };
    let driver = Half {
        seat,
        written: 0,
        taken: 0,
        read: 0,
    };
    let device = Half {
        seat: other,
        written: 0,
        taken: 0,
        read: 0,
    };
    Ok((table, driver, device))
}

impl RingTable {
    /// The table of a new queue with its constants, the driver's half, the device's half, and the buffers from 0 on,
    /// which the driver holds. The queue is 0 or 1, the size a power of two from 2 to 32,768, and the length of the buffers a
    /// multiple of 64 from 64 to 4,096. A refusal names the first of the three that is not so.
    pub fn new(
        alloc: Global,
        queue: u8,
        size: u32,
        length: u32,
    ) -> Result<(RingTable, Half, Half, Vec<Buffer>), RingFault>
        ensures queue_refused { IsErrOf result RingFault.Queue ↔ (1 < queue) }
        ensures size_refused { IsErrOf result RingFault.Size ↔ ((queue ≤ 1) × (IsRingSize size → ⊥)) }
        ensures length_refused { IsErrOf result RingFault.Length ↔ ((queue ≤ 1) × IsRingSize size × (IsBufferLength length → ⊥)) }
        ensures halves { IfOk result (λ r. IsHalfOf r.0 Driver r.1 × IsHalfOf r.0 Device r.2) }
        ensures views { IfOk result (λ r. (r.1.view ≡ new_view length) × (r.2.view ≡ new_view length)) }
        ensures table { IfOk result (λ r. (r.0.queue ≡ queue) × (size_of r.0.ring ≡ size) × (r.0.ring.width ≡ length)) }
        ensures buffers { IfOk result (λ r. r.3.items ≡ map (new_buffer length) (numbers_from 0 size)) }
        ensures room { IfOk result (λ r. size ≤ vec_capacity r.3) }
    {
        if queue > 1 {
            return Err(RingFault::Queue);
        }
        if !is_ring_size(size) {
            return Err(RingFault::Size);
        }
        if !is_buffer_length(length) {
            return Err(RingFault::Length);
        }
        let Ok(buffers) = first_buffers(alloc, size, length) else {
            return Err(RingFault::NoMemory);
        };
        let Ok((table, driver, device)) = begin(alloc, queue, size, length) else {
            return Err(RingFault::NoMemory);
        };
        Ok((table, driver, device, buffers))
    }
}
