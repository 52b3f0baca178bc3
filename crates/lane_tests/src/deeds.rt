//! What is done with lanes of every kind, and what comes of it.
ghost use Rattle.std.specs.Prelude.{List};
ghost use Rattle.lane_end.specs.SendMoves.{SendMove};
ghost use Rattle.lane_end.specs.ReceiveMoves.{ReceiveMove};

use lane_end::{RecvEnd, SendEnd};
use std::process::Abort;

/// What is done with a lane.
#[derive(Clone, Copy)]
pub enum Deed {
    /// Puts a frame, where a buffer is free: 1 where one was.
    Put(&'static [u8]),
    /// The same with the long frame.
    PutLong,
    /// Looks, takes the oldest frame, and gives its buffer back: 1 where the frame is this one.
    Take(&'static [u8]),
    /// The same with the long frame.
    TakeLong,
    /// Takes two frames, and gives the later one's buffer back first: ten times the number of the first buffer, and that of the
    /// second.
    TakeTwo,
    /// Looks at what came: how many frames are shown and not taken.
    Look,
    /// Looks at what came back: how many buffers.
    LookBack,
    /// Counts the buffers that are free at the sender.
    Free,
    /// Shuttles what was put and given back, or lets the ends meet.
    Shuttle,
}

use Deed::{LookBack, Put, PutLong, Take, TakeLong, TakeTwo};

/// A deed, and what comes of it.
pub type Row = (Deed, u32);

/// Both ends of a lane.
pub trait Lane {
    /// Does a deed, and answers what comes of it.
    fn does(&mut self, deed: Deed) -> u32;
}

/// Asserts what comes of each deed.
pub fn assert_rows<L: Lane>(rt: &impl Abort, lane: &mut L, rows: &[Row]) {
    for (i, (deed, due)) in rows.iter().enumerate() {
        assert!(rt; lane.does(*deed) == *due, "row {i}");
    }
}

/// Does a deed of a sender.
pub fn sends<S: SendEnd>(end: &mut S, deed: Deed) -> u32
    ensures { (moves : List SendMove) × S.Moved end.old moves end.new }
{
    match deed {
        Put(frame) => puts(end, frame),
        PutLong => puts(end, &long_frame()),
        LookBack => looks_back(end),
        _ => end.free_len(),
    }
}

/// Does a deed of a receiver.
pub fn receives<R: RecvEnd>(end: &mut R, deed: Deed) -> u32
    ensures { (moves : List ReceiveMove) × R.Moved end.old moves end.new }
{
    match deed {
        Take(frame) => takes(end, frame),
        TakeLong => takes(end, &long_frame()),
        TakeTwo => takes_two(end),
        _ => looks(end),
    }
}

/// Puts a frame, where a buffer is free: 1 where one was.
pub fn puts<S: SendEnd>(end: &mut S, frame: &[u8]) -> u32
    ensures { (moves : List SendMove) × S.Moved end.old moves end.new }
{
    if end.free_len() == 0 || frame.is_empty() || frame.len() > 512 {
        return 0;
    }
    end.put(frame);
    1
}

/// Looks at what came back.
pub fn looks_back<S: SendEnd>(end: &mut S) -> u32
    ensures { (moves : List SendMove) × S.Moved end.old moves end.new }
{
    end.look()
}

/// Looks at what came.
fn looks<R: RecvEnd>(end: &mut R) -> u32
    ensures { (moves : List ReceiveMove) × R.Moved end.old moves end.new }
{
    end.look()
}

/// Looks, takes the oldest frame, and gives its buffer back: 1 where the frame is this one.
pub fn takes<R: RecvEnd>(end: &mut R, frame: &[u8]) -> u32
    ensures { (moves : List ReceiveMove) × R.Moved end.old moves end.new }
{
    if end.look() == 0 {
        return 0;
    }
    let (buffer, len) = end.take();
    let (taken, _) = buffer.bytes().split_at(len as usize);
    let same = taken == frame;
    end.give_back(buffer);
    u32::from(same)
}

/// Puts three frames, where buffers are free: 1 where one was for the third.
pub fn puts_three<S: SendEnd>(end: &mut S) -> u32
    ensures { (moves : List SendMove) × S.Moved end.old moves end.new }
{
    puts(end, b"a");
    puts(end, b"a");
    puts(end, b"a")
}

/// Looks, and takes the oldest frame for good: how many frames were shown.
pub fn keeps<R: RecvEnd>(end: &mut R) -> u32
    ensures { (moves : List ReceiveMove) × R.Moved end.old moves end.new }
{
    let shown = end.look();
    if shown > 0 {
        end.take();
    }
    shown
}

/// Takes two frames, and gives the later one's buffer back first.
fn takes_two<R: RecvEnd>(end: &mut R) -> u32
    ensures { (moves : List ReceiveMove) × R.Moved end.old moves end.new }
{
    if end.look() < 2 {
        return 0;
    }
    let (first, _) = end.take();
    let (second, _) = end.take();
    let numbers = u32::from(first.number()) * 10 + u32::from(second.number());
    end.give_back(second);
    end.give_back(first);
    numbers
}

/// 512 bytes, few of which are the same.
fn long_frame() -> [u8; 512] {
    let mut frame = [0; 512];
    for i in 0..512 {
        frame[i] = (i % 251) as u8;
    }
    frame
}

/// On a lane of two buffers whose looks show all that stands.
pub static AT_ONCE: [Row; 21] = [
    (Take(b"a"), 0),
    (Put(b"a"), 1),
    (PutLong, 1),
    (Put(b"c"), 0),
    (LookBack, 0),
    (Take(b"a"), 1),
    (Put(b"c"), 0),
    (LookBack, 1),
    (Put(b"c"), 1),
    (TakeLong, 1),
    (Take(b"c"), 1),
    (LookBack, 2),
    (Put(b"a"), 1),
    (Put(b"b"), 1),
    (TakeTwo, 10),
    (LookBack, 2),
    (Put(b"a"), 1),
    (Put(b"b"), 1),
    (TakeTwo, 1),
    (LookBack, 2),
    (TakeTwo, 0),
];
