//! Plain lanes, and lanes to oneself.

use crate::deeds::{AT_ONCE, Deed, Lane, Row, assert_rows, puts, receives, sends};
use lane_end::{
    AnyRecv, AnySend, LaneFault, LoopLane, PlainRecv, PlainSend, RecvEnd, SendEnd,
    may_cross_threads, plain_lane,
};
use std::alloc::Global;
use std::process::Abort;
use std::test::Fail;

mod pair;

use Deed::{Free, Look, LookBack, Put, PutLong, Shuttle, Take, TakeLong, TakeTwo};
use pair::Pair;

// Takes the oldest frame, and sends it on, where a buffer is free: how many bytes it has.
fn sends_on<S: SendEnd, R: RecvEnd>(from: &mut R, to: &mut S) -> u32 {
    if to.free_len() == 0 || from.look() == 0 {
        return 0;
    }
    let (buffer, len) = from.take();
    let (frame, _) = buffer.bytes().split_at(len as usize);
    puts(to, frame);
    from.give_back(buffer);
    len
}

/// Whether the one frame, of three bytes, is sent on once.
fn sends_on_once<S: SendEnd, R: RecvEnd>(from: &mut R, to: &mut S) -> bool {
    sends_on(from, to) == 3 && sends_on(from, to) == 0
}

/// How many buffers are free at the sender of a new plain lane, and how many frames a look shows at its receiver.
fn new_plain(alloc: Global, size: u32) -> Result<(u32, u32), LaneFault> {
    let (send, mut recv) = plain_lane(alloc, size)?;
    Ok((send.free_len(), recv.look()))
}

/// The same of a new lane to oneself.
fn new_alone(alloc: Global, size: u32) -> Result<(u32, u32), LaneFault> {
    let mut lane = LoopLane::new(alloc, size)?;
    Ok((lane.free_len(), RecvEnd::look(&mut lane)))
}

/// Whether a lane is refused for its size, or made with all its buffers free.
fn is_as_due(made: Result<(u32, u32), LaneFault>, size: u32, fits: bool) -> bool {
    match made {
        Ok(counts) => fits && counts == (size, 0),
        Err(LaneFault::Size) => !fits,
        Err(LaneFault::NoMemory) => false,
    }
}

/// Sizes, and whether there are lanes of them.
const SIZES: &[(u32, bool)] = &[(0, false), (257, false), (1, true), (2, true), (256, true)];

#[test]
fn sizes_from_1_to_256_are_made(rt: HostRuntime) {
    may_cross_threads();
    for (size, fits) in SIZES {
        let both = is_as_due(new_plain(rt.alloc(), *size), *size, *fits)
            && is_as_due(new_alone(rt.alloc(), *size), *size, *fits);
        assert!(rt; both, "{size}");
    }
}

/// Asserts what comes of each deed on a plain lane of two buffers.
fn assert_deeds(rt: &impl Abort, alloc: Global, rows: &[Row]) -> Result<(), Fail> {
    let mut lane = Pair::new(alloc, 2)?;
    assert_rows(rt, &mut lane, rows);
    Ok(())
}

const IN_ORDER: &[Row] = &[
    (Put(b"a"), 1),
    (PutLong, 1),
    (Take(b"a"), 0),
    (Shuttle, 0),
    (Take(b"a"), 1),
    (TakeLong, 1),
    (TakeLong, 0),
];

#[test]
fn frames_arrive_once_and_in_order(rt: HostRuntime) -> Result<(), Fail> {
    assert_deeds(&rt, rt.alloc(), IN_ORDER)
}

const RUNNING_OUT: &[Row] = &[
    (Put(b"a"), 1),
    (Put(b"b"), 1),
    (Put(b"c"), 0),
    (LookBack, 0),
    (Shuttle, 0),
    (Take(b"a"), 1),
    (LookBack, 0),
    (Shuttle, 0),
    (Put(b"c"), 0),
    (LookBack, 1),
    (Put(b"c"), 1),
    (Put(b"d"), 0),
    (Shuttle, 0),
    (Take(b"b"), 1),
    (Take(b"c"), 1),
    (Take(b"d"), 0),
];

#[test]
fn a_lane_of_two_runs_out_and_goes_on(rt: HostRuntime) -> Result<(), Fail> {
    assert_deeds(&rt, rt.alloc(), RUNNING_OUT)
}

const IN_REVERSE: &[Row] = &[
    (Put(b"a"), 1),
    (Put(b"b"), 1),
    (Shuttle, 0),
    (TakeTwo, 1),
    (Shuttle, 0),
    (LookBack, 2),
    (Put(b"a"), 1),
    (Put(b"b"), 1),
    (Shuttle, 0),
    (TakeTwo, 10),
    (Shuttle, 0),
    (LookBack, 2),
    (Put(b"a"), 1),
    (Shuttle, 0),
    (TakeTwo, 0),
];

#[test]
fn buffers_come_back_as_they_were_given(rt: HostRuntime) -> Result<(), Fail> {
    assert_deeds(&rt, rt.alloc(), IN_REVERSE)
}

/// A lane to oneself needs no shuttle.
impl Lane for LoopLane {
    fn does(&mut self, deed: Deed) -> u32 {
        match deed {
            Put(_) | PutLong | LookBack | Free => sends(self, deed),
            Take(_) | TakeLong | TakeTwo | Look => receives(self, deed),
            Shuttle => 0,
        }
    }
}

#[test]
fn a_lane_to_oneself_does_the_same(rt: HostRuntime) -> Result<(), Fail> {
    let mut lane = LoopLane::new(rt.alloc(), 2)?;
    assert_rows(&rt, &mut lane, &AT_ONCE);
    Ok(())
}

// A receiver with one frame, and a sender.
fn ends(alloc: Global) -> Result<(PlainRecv, PlainSend), LaneFault> {
    let mut lane = Pair::new(alloc, 1)?;
    lane.does(Put(b"abc"));
    lane.does(Shuttle);
    let other = Pair::new(alloc, 1)?;
    Ok((lane.recv, other.send))
}

#[test]
fn frames_are_sent_on_over_plain_ends(rt: HostRuntime) -> Result<(), Fail> {
    let (mut from, mut to) = ends(rt.alloc())?;
    assert!(rt; sends_on_once(&mut from, &mut to));
    Ok(())
}

// Whether so many bytes are sent on, after which no buffer is free and none came back.
fn fills_up(from: &mut AnyRecv, to: &mut AnySend, len: u32) -> bool {
    sends_on(from, to) == len && to.free_len() == 0 && to.look() == 0
}

// Whether the one frame, of three bytes, is sent on once over ends of any kind.
fn sends_on_once_of_any_kind(from: PlainRecv, to: PlainSend) -> bool {
    let mut from = AnyRecv::Plain(from);
    let mut to = AnySend::Plain(to);
    fills_up(&mut from, &mut to, 3) && fills_up(&mut from, &mut to, 0)
}

#[test]
fn frames_are_sent_on_over_ends_of_any_kind(rt: HostRuntime) -> Result<(), Fail> {
    let (from, to) = ends(rt.alloc())?;
    assert!(rt; sends_on_once_of_any_kind(from, to));
    Ok(())
}

// Whether one frame is sent on from one lane to another.
fn sends_on_alone(alloc: Global) -> Result<bool, LaneFault> {
    let mut from = LoopLane::new(alloc, 1)?;
    let mut to = LoopLane::new(alloc, 1)?;
    from.does(Put(b"abc"));
    Ok(sends_on_once(&mut from, &mut to) && to.does(Take(b"abc")) == 1)
}

#[test]
fn frames_are_sent_on_over_lanes_to_oneself(rt: HostRuntime) -> Result<(), Fail> {
    assert!(rt; sends_on_alone(rt.alloc())?);
    Ok(())
}
