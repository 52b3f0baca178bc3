//! The ends of a lane over a ring, both on one thread.
ghost use Rattle.std.specs.Prelude.{◌≤◌, ◌<◌, length};
ghost use Rattle.mc_base.specs.Limits.{buffer_size};

use lane_end::{RecvEnd, SendEnd, open_queue0, open_queue1};
use split_ring::Ring;
use std::alloc::Global;

/// How many frames move at a time.
#[derive(Clone, Copy)]
pub enum Mode {
    One,
    Each,
}

impl Mode {
    pub fn of(word: &str) -> Mode {
        match word {
            "each" => Mode::Each,
            _ => Mode::One,
        }
    }
}

/// How many buffers came back from the device in rounds over queue 1, where there is a lane of this size.
pub fn from_driver(alloc: Global, mode: Mode, size: u32, rounds: u32) -> Option<u64> {
    let Ok((ring, driver, device, buffers)) = Ring::new(alloc, 1, size, 512) else {
        return None;
    };
    let Ok((mut send, mut recv)) = open_queue1(&ring, driver, device, buffers) else {
        unreachable!()
    };
    Some(run(&mut send, &mut recv, mode, rounds))
}

/// How many came back from the driver in rounds over queue 0.
pub fn from_device(alloc: Global, mode: Mode, size: u32, rounds: u32) -> Option<u64> {
    let Ok((ring, driver, device, buffers)) = Ring::new(alloc, 0, size, 512) else {
        return None;
    };
    let Ok((mut send, mut recv)) = open_queue0(&ring, driver, device, buffers) else {
        unreachable!()
    };
    Some(run(&mut send, &mut recv, mode, rounds))
}

/// A frame of 1 to 512 bytes, whose length differs from round to round.
fn frame_of(bytes: &[u8; 512], round: u32) -> &[u8]
    ensures some { 0 < length result.now }
    ensures fits { length result.now ≤ buffer_size }
{
    &bytes[..(round % 512 + 1) as usize]
}

fn put_one<S: SendEnd>(send: &mut S, bytes: &[u8; 512], round: u32) {
    if send.free_len() > 0 {
        send.put(frame_of(bytes, round));
    }
}

/// Puts a frame into every free buffer.
fn put_all<S: SendEnd>(send: &mut S, bytes: &[u8; 512], round: u32) {
    for number in 0..256 {
        if send.free_len() == 0 {
            return;
        }
        send.put(frame_of(bytes, round.wrapping_add(number)));
    }
}

/// Takes each frame and gives its buffer back.
fn serve<R: RecvEnd>(recv: &mut R) {
    let shown = recv.look();
    for _ in 0..shown {
        let (buffer, _) = recv.take();
        recv.give_back(buffer);
    }
}

/// Does the rounds, and answers how many buffers came back.
fn run<S: SendEnd, R: RecvEnd>(send: &mut S, recv: &mut R, mode: Mode, rounds: u32) -> u64 {
    let bytes = [7; 512];
    let mut back: u64 = 0;
    for round in 0..rounds {
        match mode {
            Mode::One => put_one(send, &bytes, round),
            Mode::Each => put_all(send, &bytes, round),
        }
        serve(recv);
        back = back.wrapping_add(u64::from(send.look()));
    }
    back
}
