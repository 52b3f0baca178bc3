ghost use Rattle.std.specs.Prelude.{◌≤◌, ◌<◌, length};

use domain_core::{Link, PeerLane};
use lane_end::{LoopLane, plain_lane};
use std::process::Abort;
use std::test::Fail;

// Puts a frame, looks at the frames that came and takes one, gives its buffer back, and looks at the buffers: what both
// looks showed.
fn round<P: PeerLane>(lane: &mut P, frame: &[u8]) -> (u32, u32)
    requires some { 0 < length frame.now }
    requires fits { length frame.now ≤ 512 }
{
    if lane.free_len() > 0 {
        lane.put(frame);
    }
    let shown = lane.look_ahead();
    if shown > 0 {
        let (buffer, _) = lane.take();
        lane.give_back(buffer);
    }
    (shown, lane.look_back())
}

// Asserts what both looks show in a round, and how many buffers are free then.
fn assert_round<P: PeerLane + Drop>(rt: &impl Abort, mut lane: P, shown: (u32, u32), free: u32) {
    assert!(rt; round(&mut lane, b"a") == shown);
    assert!(rt; lane.free_len() == free);
}

#[test]
fn lanes_of_both_kinds(rt: HostRuntime) -> Result<(), Fail> {
    let Ok(own) = LoopLane::new(rt.alloc(), 2) else {
        return Err("no lane".into());
    };
    assert_round(&rt, own, (1, 1), 2);
    let Ok((send, recv)) = plain_lane(rt.alloc(), 2) else {
        return Err("no lane".into());
    };
    let link = Link {
        peer: 1,
        size: 2,
        send,
        recv,
    };
    assert_round(&rt, link, (0, 0), 1);
    Ok(())
}
