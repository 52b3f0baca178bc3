//! Domains that sleep where they wait without end. Each is rung by one that still has lines to run; a lost ring would show as a test
//! that does not end.

use crate::threads::{Answered, Due, first_wrong, journal_at, run_asleep};
use board_runner::{Outcome, Totals};
use domain_core::Entry;
use mc_base::Refusal;
use std::alloc::{AllocError, Global};
use std::test::Fail;

/// The first domain waits for the other's name, and the second for a message or for a name that nobody has.
const WAITS: &[u8] = b"domain 0 nodes 1 pool 2
domain 1 nodes 1 pool 2
link 0 1 size 2
0.0 create 1
0.0 a = lookup 1:0:2
0.0 wait a 4294967295
0.0 msg_send 1 1:0:2 0 61
0.0 wait a 0
1.0 create 2
1.0 r = msg_recv_i 2 9
1.0 b = lookup 1:0:9
1.0 wait_any b,r 4294967295
1.0 wait b 3
";

const ANSWERS_OF_WAITS: &[Answered] = &[
    (0, 3, Due::Found(1024)),
    (0, 5, Due::Refused(Refusal::RequestInvalid)),
    (1, 4, Due::BroughtBySecond(0x61)),
    (1, 5, Due::Refused(Refusal::Timeout)),
];

/// The second domain sends its last message and ends, while the first sleeps on the message before it.
const PARTNER_ENDS: &[u8] = b"domain 0 nodes 1 pool 2
domain 1 nodes 1 pool 2
link 0 1 size 2
0.0 create 1
0.0 try 4294967295 msg_recv 1 9
0.0 try 4294967295 msg_recv 1 9
1.0 create 2
1.0 far = lookup 0:0:1
1.0 wait far 4294967295
1.0 try 4294967295 msg_send 2 0:0:1 0 61
1.0 try 4294967295 msg_send 2 0:0:1 0 62
";

const ANSWERS_OF_PARTNER: &[Answered] = &[
    (0, 2, Due::Received(0x61)),
    (0, 3, Due::Received(0x62)),
    (1, 4, Due::Ok),
    (1, 5, Due::Ok),
];

/// The ring has two buffers, so a buffer that is given back has to wake the sender.
const FEW_BUFFERS: &[u8] = b"domain 0 nodes 1 pool 2
domain 1 nodes 1 pool 2
link 0 1 size 2
0.0 create 1
0.0 far = lookup 1:0:2
0.0 wait far 4294967295
0.0 try 4294967295 msg_send 1 1:0:2 0 61
0.0 try 4294967295 msg_send 1 1:0:2 0 62
0.0 try 4294967295 msg_send 1 1:0:2 0 63
0.0 try 4294967295 msg_send 1 1:0:2 0 64
0.0 try 4294967295 msg_send 1 1:0:2 0 65
1.0 create 2
1.0 try 4294967295 msg_recv 2 9
1.0 turn
1.0 turn
1.0 try 4294967295 msg_recv 2 9
1.0 try 4294967295 msg_recv 2 9
1.0 turn
1.0 try 4294967295 msg_recv 2 9
1.0 try 4294967295 msg_recv 2 9
";

const ANSWERS_OF_FEW: &[Answered] = &[
    (0, 4, Due::Ok),
    (0, 8, Due::Ok),
    (1, 2, Due::Received(0x61)),
    (1, 5, Due::Received(0x62)),
    (1, 6, Due::Received(0x63)),
    (1, 9, Due::Received(0x65)),
];

/// A board, answers of its lines, and how many messages are sent and taken.
type Board = (&'static [u8], &'static [Answered], u64);

static BOARDS: [Board; 3] = [
    (WAITS, ANSWERS_OF_WAITS, 1),
    (PARTNER_ENDS, ANSWERS_OF_PARTNER, 2),
    (FEW_BUFFERS, ANSWERS_OF_FEW, 5),
];

fn is_as_due(outcome: &Outcome, (_, answers, messages): Board) -> bool {
    let totals = Totals {
        accepted: messages,
        taken: messages,
        dropped: 0,
        queued: 0,
        ring: 0,
    };
    first_wrong(outcome, answers) == None && outcome.messages == totals
}

#[test]
fn a_sleeper_is_woken_by_a_name_a_message_and_a_buffer(rt: HostRuntime) -> Result<(), Fail> {
    for (i, board) in BOARDS.iter().enumerate() {
        for _run in 0..20 {
            let outcome = run_asleep(&rt, rt.alloc(), board.0).ok_or("memory")?;
            assert!(rt; is_as_due(&outcome, *board), "board {i}");
        }
    }
    Ok(())
}

/// The second domain makes 500,000 turns before it sends what the first waits for.
fn long_wait(alloc: Global) -> Result<Vec<u8>, AllocError> {
    let mut text = Vec::new(alloc);
    text.extend_from_slice(
        b"domain 0 nodes 1 pool 2
domain 1 nodes 1 pool 2
link 0 1 size 2
0.0 create 1
0.0 r = msg_recv_i 1 9
0.0 wait r 4294967295
1.0 create 1
1.0 far = lookup 0:0:1
1.0 wait far 4294967295
",
    )?;
    for _turn in 0..500_000 {
        text.extend_from_slice(b"1.0 turn\n")?;
    }
    text.extend_from_slice(b"1.0 msg_send 1 0:0:1 0 61\n")?;
    Ok(text)
}

/// How many idle turns the journal of a domain has.
fn idle_turns(outcome: &Outcome, at: usize) -> Option<u64> {
    let journal = journal_at(outcome, at)?;
    let mut sum = 0u64;
    for number in 0..journal.len() {
        if let Some(Entry::Idle { turns }) = journal.entry(number) {
            sum = sum.saturating_add(turns);
        }
    }
    Some(sum)
}

/// A domain that polled would make about as many idle turns as the other makes turns.
#[test]
fn a_sleeper_makes_few_turns(rt: HostRuntime) -> Result<(), Fail> {
    let text = long_wait(rt.alloc())?;
    let outcome = run_asleep(&rt, rt.alloc(), &text).ok_or("memory")?;
    assert!(rt; outcome.messages.taken == 1);
    assert!(rt; idle_turns(&outcome, 0).ok_or("journal")? < 100_000);
    Ok(())
}
