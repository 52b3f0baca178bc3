//! Raw frames of domains on threads: each line answers as in a serial run, whenever the frames come.

use crate::threads::{Answered, Due, answer_of, first_wrong, journal_at, run};
use board_runner::{NoGate, Outcome};
use domain_core::Answer;
use mc_base::Refusal;
use std::alloc::Global;
use std::test::Fail;
use std::thread::Threads;

/// Four frames with faults of a letter and of an announcement, on a link of four buffers.
static LETTERS: &[u8] = b"domain 0 nodes 1 pool 2
domain 1 nodes 1 pool 2
link 0 1 size 4
0.0 raw 1 000400000004000000000000080000000001010000000000
0.0 raw 1 000400000004000000000000080000004d09010000000000
0.0 raw 1 000400000004000000000000080000004d014d0000000000
0.0 raw 1 00040000350000000000000027000000000000000000000000000000000000000000000000000000000000000000000000000000000000
1.0 turn
";

/// Nine frames, one for each other fault that fits on a link, on a link of 16 buffers.
static FRAMES: &[u8] = b"domain 0 nodes 1 pool 2
domain 1 nodes 1 pool 2
link 0 1 size 16
0.0 raw 1 00
0.0 raw 1 00040000000400000000000001000000
0.0 raw 1 00040000000400000000000000000000
0.0 raw 1 000400000004000000000000080000004d01010400000000
0.0 raw 1 000400000004000000000000080000004d01020000000000
0.0 raw 1 000400000004000000000000080000004d01010001000000
0.0 raw 1 000400000004000000000000090000004d0108020100000000
0.0 raw 1 0004000035000000000000002800000061000000000000000000000000000000000000000000000000000000000000000004000002000000
0.0 raw 1 0004000035000000000000002800000000000000000000000000000000000000000000000000000000000000000000000000000000000000
1.0 turn
1.0 turn
";

/// Raw frames to a domain that is not declared, and to the domain itself.
const OWN_LANE: &[u8] = b"domain 0 nodes 1 pool 2
0.0 raw 5 00
0.0 raw 0 00
";

/// How many of the first lines of a domain answer ok, one after the other.
fn answers(outcome: &Outcome, at: usize) -> Option<u32> {
    let journal = journal_at(outcome, at)?;
    let mut lines = 0;
    for line in 1..100 {
        if !matches!(answer_of(journal, line), Some(Answer::Ok)) {
            break;
        }
        lines = line;
    }
    Some(lines)
}

/// Whether so many of the first lines of each of two domains answer ok.
fn are_put<R: Threads + Sync>(
    rt: &R,
    alloc: Global,
    text: &[u8],
    lines: (u32, u32),
) -> Option<bool> {
    let outcome = run(rt, alloc, text, &NoGate)?;
    Some((answers(&outcome, 0)?, answers(&outcome, 1)?) == lines)
}

#[test]
fn each_frame_is_put(rt: HostRuntime) -> Result<(), Fail> {
    assert!(rt; are_put(&rt, rt.alloc(), LETTERS, (4, 1)).ok_or("memory")?);
    assert!(rt; are_put(&rt, rt.alloc(), FRAMES, (9, 2)).ok_or("memory")?);
    Ok(())
}

static ANSWERS: [Answered; 2] = [(0, 1, Due::Refused(Refusal::LinkInvalid)), (0, 2, Due::Ok)];

#[test]
fn a_frame_goes_over_a_lane_alone(rt: HostRuntime) -> Result<(), Fail> {
    let outcome = run(&rt, rt.alloc(), OWN_LANE, &NoGate).ok_or("memory")?;
    assert!(rt; first_wrong(&outcome, &ANSWERS) == None);
    Ok(())
}
