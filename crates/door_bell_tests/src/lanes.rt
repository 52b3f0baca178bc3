//! Two threads over the ends of one lane, of which each sleeps when it cannot go on.
use crate::bed::Bed;
use door_bell::{Bell, BellRecv, BellSend};
use lane_end::{DeviceRecv, DriverSend, RecvEnd, SendEnd, open_queue1};
use split_ring::Ring;
use std::alloc::Global;
use std::sync::Wait;
use std::test::Fail;
use std::thread::{Threads, join};

const FRAMES: u32 = 20_000;

/// Puts all frames, and returns how many looks found no free buffer.
fn send_all<'a, R: Wait>(mut end: BellSend<'a, DriverSend<'a>>, mut bed: Bed<'a, R>) -> u64 {
    let mut left = FRAMES;
    let mut idle = 0u64;
    for _ in 0..u64::MAX {
        if left == 0 {
            break;
        }
        bed.before_look();
        end.look();
        if end.free_len() == 0 {
            idle = idle.wrapping_add(1);
            bed.after_nothing();
        } else {
            end.put(b"abc");
            left -= 1;
        }
    }
    idle
}

/// Takes all frames, gives their buffers back, and returns how many looks showed none.
fn take_all<'a, R: Wait>(mut end: BellRecv<'a, DeviceRecv<'a>>, mut bed: Bed<'a, R>) -> u64 {
    let mut left = FRAMES;
    let mut idle = 0u64;
    for _ in 0..u64::MAX {
        if left == 0 {
            break;
        }
        bed.before_look();
        if end.look() == 0 {
            idle = idle.wrapping_add(1);
            bed.after_nothing();
        } else {
            let (buffer, _) = end.take();
            end.give_back(buffer);
            left -= 1;
        }
    }
    idle
}

/// How many looks of the sender and of the receiver of a lane found nothing, each on a thread of its own. `None` where there is no
/// memory.
fn idle_looks<'a, R: Threads + Wait + Sync>(
    rt: &R,
    alloc: Global,
    send: DriverSend<'a>,
    recv: DeviceRecv<'a>,
) -> Option<(u64, u64)> {
    let Ok((here, sender, mut to_here)) = Bell::new(alloc, 1) else {
        return None;
    };
    let Ok((there, receiver, mut to_there)) = Bell::new(alloc, 1) else {
        return None;
    };
    let send = BellSend::new(send, to_there.remove(0), &there);
    let recv = BellRecv::new(recv, to_here.remove(0), &here);
    let sender = Bed::new(rt, sender, &here);
    let receiver = Bed::new(rt, receiver, &there);
    Some(join(rt, || send_all(send, sender), || take_all(recv, receiver)))
}

// A frame wakes the receiver, and a buffer given back wakes the sender: the ring has two. A lost ring would show as a test that does not
// end, and a sleep that polls as more idle looks than frames allow.
#[test]
fn each_end_of_a_lane_wakes_the_other(rt: HostRuntime) -> Result<(), Fail> {
    let (ring, driver, device, buffers) = Ring::new(rt.alloc(), 1, 2, 512)?;
    let Ok((send, recv)) = open_queue1(&ring, driver, device, buffers) else {
        unreachable!()
    };
    let looks = idle_looks(&rt, rt.alloc(), send, recv);
    assert!(rt; looks.is_some_and(|(full, dry)| full <= 100_000 && dry <= 100_000));
    Ok(())
}
