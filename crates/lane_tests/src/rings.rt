//! Lanes over rings, of both queues.
ghost use Rattle.std.specs.Prelude.{◌≤◌};

use crate::deeds::{AT_ONCE, Deed, Lane, Row, assert_rows};
use lane_end::may_cross_threads;
use split_ring::Ring;
use std::alloc::Global;
use std::process::Abort;
use std::test::Fail;

mod pair;

use Deed::{Free, Look, LookBack, Put, PutLong, Shuttle, Take, TakeLong, TakeTwo};
use pair::Pair;

// The lane from the driver is over queue 1, and that from the device over queue 0.
const DRIVER: u8 = 1;

const DEVICE: u8 = 0;

/// What is played on a lane.
#[derive(Clone, Copy)]
enum Play {
    /// These rows.
    Rows(&'static [Row]),
    /// All its buffers are used once.
    Whole,
    /// All its buffers are used so many times.
    Rounds(u32),
}

use Play::{Rounds, Rows, Whole};

/// Asserts what comes of a play on a lane of this size.
fn assert_play(rt: &impl Abort, mut lane: Pair<'_>, size: u32, play: Play) {
    let is_due = match play {
        Rows(rows) => {
            assert_rows(rt, &mut lane, rows);
            true
        }
        Whole => is_whole(&mut lane, size),
        Rounds(rounds) => goes_round(&mut lane, rounds),
    };
    assert!(rt; is_due, "size {size}");
}

/// Asserts what comes of a play on a lane of this size over a ring of this queue.
fn assert_over(rt: &impl Abort, alloc: Global, queue: u8, size: u32, play: Play) -> Result<(), Fail>
    requires { queue ≤ 1 }
{
    let (ring, driver, device, buffers) = Ring::new(alloc, queue, size, 512)?;
    let lane = Pair::open(&ring, queue, driver, device, buffers);
    assert_play(rt, lane, size, play);
    Ok(())
}

#[test]
fn frames_arrive_at_once_from_the_driver(rt: HostRuntime) -> Result<(), Fail> {
    assert_over(&rt, rt.alloc(), DRIVER, 2, Rows(&AT_ONCE))
}

#[test]
fn frames_arrive_at_once_from_the_device(rt: HostRuntime) -> Result<(), Fail> {
    assert_over(&rt, rt.alloc(), DEVICE, 2, Rows(&AT_ONCE))
}

// A look shows at least what stood at the meeting before it, and at most what stands at the next.
static BETWEEN_MEETINGS: [Row; 27] = [
    (Shuttle, 0),
    (Look, 0),
    (Put(b"a"), 1),
    (Shuttle, 0),
    (Look, 1),
    (PutLong, 1),
    (Look, 2),
    (Shuttle, 0),
    (Put(b"c"), 0),
    (Take(b"a"), 1),
    (Look, 1),
    (Shuttle, 0),
    (LookBack, 1),
    (TakeLong, 1),
    (LookBack, 1),
    (Shuttle, 0),
    (LookBack, 0),
    (Put(b"a"), 1),
    (Put(b"b"), 1),
    (Shuttle, 0),
    (TakeTwo, 1),
    (Shuttle, 0),
    (LookBack, 2),
    (Put(b"a"), 1),
    (Put(b"b"), 1),
    (TakeTwo, 10),
    (LookBack, 2),
];

#[test]
fn meetings_with_the_driver_change_no_look(rt: HostRuntime) -> Result<(), Fail> {
    assert_over(&rt, rt.alloc(), DRIVER, 2, Rows(&BETWEEN_MEETINGS))
}

#[test]
fn meetings_with_the_device_change_no_look(rt: HostRuntime) -> Result<(), Fail> {
    assert_over(&rt, rt.alloc(), DEVICE, 2, Rows(&BETWEEN_MEETINGS))
}

// How often a deed succeeds, at most 300 times.
fn succeeds<L: Lane>(lane: &mut L, deed: Deed) -> u32 {
    for done in 0..300 {
        if lane.does(deed) == 0 {
            return done;
        }
    }
    300
}

// Whether all buffers of a lane of this size are free, can be put, come, go back and are free again.
fn is_whole<L: Lane>(lane: &mut L, size: u32) -> bool {
    let mut is_due = lane.does(Free) == size;
    is_due &= succeeds(lane, Put(b"a")) == size;
    is_due &= lane.does(Free) == 0;
    is_due &= lane.does(Look) == size;
    is_due &= succeeds(lane, Take(b"a")) == size;
    is_due &= lane.does(LookBack) == size;
    is_due & (lane.does(Free) == size)
}

#[test]
fn lanes_open_with_all_buffers_free(rt: HostRuntime) -> Result<(), Fail> {
    may_cross_threads();
    for size in [2, 16, 256] {
        assert_over(&rt, rt.alloc(), DRIVER, size, Whole)?;
        assert_over(&rt, rt.alloc(), DEVICE, size, Whole)?;
    }
    Ok(())
}

// Whether a deed succeeds so many times.
fn does_all<L: Lane>(lane: &mut L, deed: Deed, times: u32) -> bool {
    for _ in 0..times {
        if lane.does(deed) != 1 {
            return false;
        }
    }
    true
}

// Whether a lane of 256 is filled, half taken, met and emptied in each round.
fn goes_round<L: Lane>(lane: &mut L, rounds: u32) -> bool {
    let mut is_due = true;
    for _ in 0..rounds {
        is_due &= does_all(lane, Put(b"a"), 256);
        is_due &= does_all(lane, Take(b"a"), 128);
        is_due &= lane.does(Shuttle) == 0;
        is_due &= does_all(lane, Take(b"a"), 128);
        is_due &= lane.does(LookBack) == 256;
    }
    is_due
}

// So many that the indices of a ring wrap twice: more than 131,072 frames.
const ROUNDS: u32 = 700;

#[test]
fn indices_wrap_from_the_driver(rt: HostRuntime) -> Result<(), Fail> {
    assert_over(&rt, rt.alloc(), DRIVER, 256, Rounds(ROUNDS))
}

#[test]
fn indices_wrap_from_the_device(rt: HostRuntime) -> Result<(), Fail> {
    assert_over(&rt, rt.alloc(), DEVICE, 256, Rounds(ROUNDS))
}
