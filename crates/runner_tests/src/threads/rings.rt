use crate::threads::run;
use board_runner::{NoGate, Outcome};
use ring_trace::{check_image, image_of};
use std::alloc::Global;
use std::test::Fail;

/// Two domains that send each other messages over one link, and a third that is linked to both and sends nothing.
static BOARD: &[u8] = b"domain 0 nodes 1 pool 2
domain 1 nodes 1 pool 2
domain 2 nodes 1 pool 2
link 1 0 size 4
link 0 2 size 2
link 2 1 size 256
0.0 create 1
0.0 far = lookup 1:0:1
0.0 wait far 4294967295
0.0 msg_send 1 1:0:1 0 6869
0.0 try 4294967295 msg_recv 1 9
1.0 create 1
1.0 far = lookup 0:0:1
1.0 wait far 4294967295
1.0 msg_send 1 0:0:1 0 6869
1.0 try 4294967295 msg_recv 1 9
2.0 turn
";

/// The sizes of its links, in their order.
static SIZES: [u32; 3] = [4, 2, 256];

/// The longest image of a ring.
const LONGEST: usize = 26 * 256 + 14;

/// Whether an outcome has two rings for each link of these sizes, queue 0 and then queue 1, and no image of them has a fault.
fn are_sound(alloc: Global, outcome: &Outcome, sizes: &[u32]) -> Option<bool> {
    let rings = outcome.rings.as_slice();
    for (at, ring) in rings.iter().enumerate() {
        let image = image_of(alloc, ring).ok()?;
        if image.len() > LONGEST {
            return Some(false);
        }
        let Ok(info) = check_image(&image) else {
            return Some(false);
        };
        if sizes.get(at / 2) != Some(&info.size) || usize::from(info.queue) != at % 2 {
            return Some(false);
        }
    }
    Some(rings.len() == 2 * sizes.len())
}

#[test]
fn images_of_a_run_have_no_fault(rt: HostRuntime) -> Result<(), Fail> {
    for _run in 0..10 {
        let outcome = run(&rt, rt.alloc(), BOARD, &NoGate).ok_or("memory")?;
        assert!(rt; are_sound(rt.alloc(), &outcome, &SIZES).ok_or("memory")?);
    }
    Ok(())
}
