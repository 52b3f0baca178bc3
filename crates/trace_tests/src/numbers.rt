use crate::images::ONE_FRAME;
use mc_base::NoMemory;
use ring_numbers::{SenderNumbers, image_left};
use std::alloc::Global;

/// A queue 0 of size 4 over which nothing was put: its driver offered all buffers.
static NOTHING_PUT: [u8; 118] = [
    0, 0, 0, 0, 0, 0, 0, 0, 0, 2, 0, 0, 2, 0, 0, 0, 0, 2, 0, 0, 0, 0, 0, 0, 0, 2, 0, 0, 2, 0, 0, 0,
    0, 4, 0, 0, 0, 0, 0, 0, 0, 2, 0, 0, 2, 0, 0, 0, 0, 6, 0, 0, 0, 0, 0, 0, 0, 2, 0, 0, 2, 0, 0, 0,
    0, 0, 4, 0, 0, 0, 1, 0, 2, 0, 3, 0, 0, 0, 0, 0, 0, 0, 0, 0, 0, 0, 0, 0, 0, 0, 0, 0, 0, 0, 0, 0,
    0, 0, 0, 0, 0, 0, 0, 0, 0, 0, 0, 0, 0, 0, 0, 0, 0, 0, 0, 0, 0, 0,
];

/// A queue 0 of size 2 after frames of 16 and 20 bytes, of which the second is given back first, and one of 24 bytes after that.
static THREE_FRAMES: [u8; 66] = [
    0, 0, 0, 0, 0, 0, 0, 0, 0, 2, 0, 0, 2, 0, 0, 0, 0, 2, 0, 0, 0, 0, 0, 0, 0, 2, 0, 0, 2, 0, 0, 0,
    0, 0, 4, 0, 1, 0, 0, 0, 0, 0, 0, 0, 0, 0, 3, 0, 1, 0, 0, 0, 24, 0, 0, 0, 1, 0, 0, 0, 20, 0, 0,
    0, 0, 0,
];

/// What happens at a sender.
#[derive(Clone, Copy)]
enum Event {
    /// A frame of so many bytes is put.
    Put(u32),
    /// So many buffers come back, which are all of frames that were put or not.
    Back(u32, bool),
}

use Event::{Back, Put};

/// Whether each buffer comes back as it must.
fn happen(numbers: &mut SenderNumbers, events: &[Event]) -> Result<bool, NoMemory> {
    let mut as_due = true;
    for event in events {
        match *event {
            Put(bytes) => numbers.put(bytes)?,
            Back(count, are_put) => as_due &= numbers.come_back(count)? == are_put,
        }
    }
    Ok(as_due)
}

/// What happens over a lane, of whose frames these buffers are given back, and the numbers and lengths of those that were used.
struct Run {
    size: u16,
    given: &'static [u32],
    events: &'static [Event],
    used: &'static [(u16, u32)],
}

/// Whether all happens as it must.
fn is_due(alloc: Global, run: &Run) -> Result<bool, NoMemory> {
    let mut numbers = SenderNumbers::new(alloc, run.size, run.given)?;
    let as_due = happen(&mut numbers, run.events)?;
    Ok(as_due && numbers.used() == run.used)
}

/// Whether this image is left of a queue after a run.
fn leaves(alloc: Global, queue: u8, run: &Run, image: &[u8]) -> Result<bool, NoMemory> {
    if run.used.iter().any(|(number, _)| *number >= run.size)
        || run.size == 0
        || run.size > 256
        || queue > 1
    {
        return Ok(false);
    }
    let left = image_left(alloc, run.size, queue, run.used, run.given)?;
    Ok(left.as_slice() == image)
}

/// Whether a run goes as it must, and leaves this image of this queue.
fn holds(alloc: Global, queue: u8, run: &Run, image: &[u8]) -> Result<bool, NoMemory> {
    Ok(is_due(alloc, run)? && leaves(alloc, queue, run, image)?)
}

const UNUSED: Run = Run {
    size: 4,
    given: &[],
    events: &[],
    used: &[],
};

#[test]
fn an_unused_queue_has_all_buffers_offered(rt: HostRuntime) {
    assert!(rt; matches!(holds(rt.alloc(), 0, &UNUSED, &NOTHING_PUT), Ok(true)));
}

const ONCE: Run = Run {
    size: 4,
    given: &[0],
    events: &[Put(26), Back(1, true)],
    used: &[(0, 26)],
};

#[test]
fn a_frame_leaves_its_number_and_its_length(rt: HostRuntime) {
    assert!(rt; matches!(holds(rt.alloc(), 1, &ONCE, &ONE_FRAME), Ok(true)));
}

const REVERSED: Run = Run {
    size: 2,
    given: &[1, 0],
    events: &[Put(16), Put(20), Back(2, true), Put(24)],
    used: &[(0, 16), (1, 20), (1, 24)],
};

#[test]
fn buffers_are_used_in_the_order_in_which_they_came_back(rt: HostRuntime) {
    assert!(rt; matches!(holds(rt.alloc(), 0, &REVERSED, &THREE_FRAMES), Ok(true)));
}

const TOO_EARLY: Run = Run {
    size: 2,
    given: &[1],
    events: &[Put(16), Back(1, false)],
    used: &[(0, 16)],
};

#[test]
fn no_buffer_comes_back_before_its_frame_is_put(rt: HostRuntime) {
    assert!(rt; matches!(is_due(rt.alloc(), &TOO_EARLY), Ok(true)));
}
