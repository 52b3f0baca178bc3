//! Moves buffers over a ring, by its halves or by the ends of a lane, so that `bench/ring.sh` and `bench/lane.sh` can time it. It
//! prints what it did, and no time.
//!
//! Four words for each run: a mode, the size of the ring, the number of rounds, and `halves`, or the queue of the lane. Over halves on
//! one thread, `one` moves one buffer at a time, `order` all of them, and `reverse` all of them with the order turned round. `each`
//! offers all, and gives each back as soon as it is fetched. On two threads, one for each half, `two` moves all buffers, and `ping` one
//! alone. Over a lane, `one` moves one frame at a time; `each` fills the lane, and then each frame is taken and its buffer given back.
//! The lengths differ from round to round.
#![tactic(auto)]

mod batch;
mod each;
mod lane;
mod length;
mod one;
mod two;

use lane::Mode;
use split_ring::Ring;
use std::alloc::AllocError;
use std::thread::Threads;
use std::{env, io};
use two::Load;

fn number(word: Option<String>) -> u32 {
    match word {
        Some(word) => word.parse().unwrap_or(0),
        None => 0,
    }
}

/// How many buffers the driver reclaimed in rounds over a ring of this size, where there is one.
fn reclaimed<R: Threads + Sync + AllocGlobal>(
    rt: &R,
    mode: &str,
    size: u32,
    rounds: u32,
) -> Result<Option<u64>, AllocError> {
    let alloc = rt.alloc();
    let Ok((ring, driver, device, buffers)) = Ring::new(alloc, 1, size, 512) else {
        return Ok(None);
    };
    let closed = match mode {
        "two" => two::run(rt, ring, driver, device, buffers, Load::All, rounds),
        "ping" => two::run(rt, ring, driver, device, buffers, Load::One, rounds),
        "order" => batch::run(alloc, ring, driver, device, buffers, rounds, false)?,
        "each" => each::run(alloc, ring, driver, device, buffers, rounds)?,
        "reverse" => batch::run(alloc, ring, driver, device, buffers, rounds, true)?,
        _ => one::run(ring, driver, device, buffers, rounds),
    };
    Ok(Some(closed.driver_saw()))
}

/// How many buffers came back in rounds over the halves of a ring of this size, or over a lane of this queue.
fn moved<R: Threads + Sync + AllocGlobal>(
    rt: &R,
    mode: &str,
    size: u32,
    rounds: u32,
    over: &str,
) -> Result<Option<u64>, AllocError> {
    match over {
        "0" => Ok(lane::from_device(rt.alloc(), Mode::of(mode), size, rounds)),
        "1" => Ok(lane::from_driver(rt.alloc(), Mode::of(mode), size, rounds)),
        _ => reclaimed(rt, mode, size, rounds),
    }
}

/// Does the rounds, and prints what they did.
fn report<R: Threads + Sync + AllocGlobal + Print>(
    rt: &R,
    mode: &str,
    size: u32,
    rounds: u32,
    over: &str,
) -> io::Result<()> {
    match moved(rt, mode, size, rounds, over)? {
        Some(count) => println!(rt; "{mode} {size} {rounds} {over} came back {count}"),
        None => println!(rt; "no ring of {size}"),
    }
}

fn main(rt: HostRuntime) -> io::Result<()> {
    let mut words = env::args(&rt)?;
    words.next();
    for _ in 0..u64::MAX {
        let Some(mode) = words.next() else {
            return Ok(());
        };
        let size = number(words.next());
        let rounds = number(words.next());
        let Some(over) = words.next() else {
            return Ok(());
        };
        report(&rt, mode.as_str(), size, rounds, over.as_str())?;
    }
    Ok(())
}
