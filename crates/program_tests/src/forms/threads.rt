//! The forms `run` and `run --bells`, which promise the same.

use super::{
    EMPTY, Given, MESSAGE, MESSAGE_REPORT, NO_CALL, NO_CALL_REPORT, ONE_BUFFER, ONE_BUFFER_REPORT,
    REFUSED, comes_out, is_right, lines_of, outcome_of, repeated_comes_out,
};
use std::alloc::{AllocError, Global};
use std::sync::Wait;
use std::test::Fail;
use std::thread::Threads;

const THREADS: &[&str] = &["run"];

const BELLS: &[&str] = &["run", "--bells"];

/// The words of both forms.
const BOTH: [&[&str]; 2] = [THREADS, BELLS];

const SERIAL_HEADING: &[u8] = b"mcapi-report 1 serial\n";

const THREADS_HEADING: &[u8] = b"mcapi-report 1 threads\n";

/// The form `run` on the scenario of one message, with streams that fail nowhere.
const ON_THREADS: Given<'static> = Given {
    words: THREADS,
    text: MESSAGE,
    ..EMPTY
};

/// How long its report is.
const LENGTH: usize = MESSAGE_REPORT.len() + 1;

static ONE_DOMAIN: [(&[u8], &[u8]); 3] = [
    (MESSAGE, MESSAGE_REPORT),
    (ONE_BUFFER, ONE_BUFFER_REPORT),
    (NO_CALL, NO_CALL_REPORT),
];

/// The bytes after a front, or `None` where they begin otherwise.
fn after<'a>(front: &[u8], bytes: &'a [u8]) -> Option<&'a [u8]> {
    if bytes.starts_with(front) {
        bytes.get(front.len()..)
    } else {
        None
    }
}

/// One domain has nobody to run beside, so its report is that of the serial run under another heading.
#[test]
fn one_domain_on_threads(rt: HostRuntime) -> Result<(), Fail> {
    for words in BOTH {
        for (text, report) in &ONE_DOMAIN {
            let given = Given {
                words,
                text: *text,
                ..ON_THREADS
            };
            let (status, output) = outcome_of(&rt, rt.alloc(), given)?;
            let written = after(THREADS_HEADING, output.written()).ok_or("heading")?;
            assert!(rt; status == 0);
            assert!(rt; after(SERIAL_HEADING, *report) == Some(written));
            assert!(rt; is_right(&rt, rt.alloc(), output.written())?);
        }
    }
    Ok(())
}

/// A call, its status, and how many bytes of the report it writes.
static CUTS: [(Given<'static>, u8, usize); 6] = [
    (
        Given {
            failing_read: 0,
            ..ON_THREADS
        },
        4,
        0,
    ),
    (
        Given {
            failing_read: 1,
            ..ON_THREADS
        },
        4,
        0,
    ),
    (
        Given {
            failing_write: 0,
            ..ON_THREADS
        },
        5,
        0,
    ),
    (
        Given {
            failing_write: 14,
            step: 1,
            ..ON_THREADS
        },
        5,
        14,
    ),
    (
        Given {
            room: LENGTH,
            ..ON_THREADS
        },
        0,
        LENGTH,
    ),
    (
        Given {
            room: LENGTH - 1,
            ..ON_THREADS
        },
        5,
        LENGTH - 1,
    ),
];

#[test]
fn streams_that_fail_on_threads(rt: HostRuntime) -> Result<(), Fail> {
    let (_, whole) = outcome_of(&rt, rt.alloc(), ON_THREADS)?;
    for words in BOTH {
        for (i, (given, status, length)) in CUTS.iter().enumerate() {
            let given = Given { words, ..*given };
            let written = whole.written().get(..*length).ok_or("length")?;
            assert!(rt;
                comes_out(&rt, rt.alloc(), given, *status, written)?,
                "row {i}"
            );
        }
    }
    Ok(())
}

/// Texts that are no scenario, and the refusal of each.
static REFUSALS: [(&[u8], &[u8]); 3] = [
    (b"", REFUSED),
    (b"domain 0 nodes 0 pool 2\n", b"refused 1 number\n"),
    (b"domain 0 nodes 1 pool 2\n0.0 fly 1\n", b"refused 2 form\n"),
];

#[test]
fn refusals_on_threads(rt: HostRuntime) -> Result<(), Fail> {
    for words in BOTH {
        for (i, (text, written)) in REFUSALS.iter().enumerate() {
            let given = Given {
                words,
                text: *text,
                ..ON_THREADS
            };
            assert!(rt; comes_out(&rt, rt.alloc(), given, 3, *written)?, "row {i}");
        }
    }
    Ok(())
}

#[test]
fn limit_of_the_input_on_threads(rt: HostRuntime) -> Result<(), Fail> {
    let long = (b'7', 8_388_608);
    let longer = (b'7', 8_388_609);
    for words in BOTH {
        assert!(rt; repeated_comes_out(&rt, rt.alloc(), words, long, 3, b"refused 1 long\n")?);
        assert!(rt; repeated_comes_out(&rt, rt.alloc(), words, longer, 7, b"")?);
    }
    Ok(())
}

/// Two linked domains that send each other a message, and tell by tries when it came.
const LINKED: &[u8] = b"domain 0 nodes 1 pool 2
domain 1 nodes 1 pool 2
link 0 1 size 4
0.0 create 1
0.0 far = lookup 1:0:1
0.0 try 4294967295 test far
0.0 try 4294967295 msg_send 1 1:0:1 1 7069
0.0 try 4294967295 msg_recv 1 9
1.0 create 1
1.0 far = lookup 0:0:1
1.0 try 4294967295 test far
1.0 try 4294967295 msg_send 1 0:0:1 1 706f
1.0 try 4294967295 msg_recv 1 9
";

const LINKED_MESSAGES: &[u8] = b"messages accepted 2 taken 2 dropped 0 queued 0 ring 0\n";

/// How long a line of a lane with numbers of one digit is.
const LANE: usize = b"lane 0 0 free 2 ring 0 queue 0 lent 0\n".len();

/// How long the line of a ring of size 4 is, whose image has 118 bytes.
const RING: usize = b"ring 0 1 0 \n".len() + 2 * 118;

/// How long four lines of lanes and two lines of rings are, with the last line of the report.
const LINKED_END: usize = 4 * LANE + 2 * RING + b"end\n".len();

#[test]
fn two_linked_domains_on_threads(rt: HostRuntime) -> Result<(), Fail> {
    for run in 0..40 {
        let given = Given {
            words: if run < 20 { THREADS } else { BELLS },
            text: LINKED,
            ..ON_THREADS
        };
        let (status, output) = outcome_of(&rt, rt.alloc(), given)?;
        let written = output.written();
        assert!(rt; status == 0);
        assert!(rt; written.starts_with(THREADS_HEADING));
        let above = written.len().saturating_sub(LINKED_END);
        let messages = written.get(..above).ok_or("length")?;
        assert!(rt; messages.ends_with(LINKED_MESSAGES));
        assert!(rt; is_right(&rt, rt.alloc(), written)?);
    }
    Ok(())
}

/// Two linked domains, each of which makes one turn that finds nothing to do.
const TURNS: &[u8] = b"domain 0 nodes 1 pool 2
domain 1 nodes 1 pool 2
link 0 1 size 4
0.0 turn
1.0 turn
";

/// In queue 0 the driver has offered its four buffers, and in queue 1 nothing was done.
const TURNS_REPORT: &[u8] = b"mcapi-report 1 threads
domain 0 nodes 1 pool 2
domain 1 nodes 1 pool 2
link 0 1 size 4
0.0 turn
1.0 turn
journal 0
idle 1
call 1 ok
journal 1
idle 1
call 1 ok
messages accepted 0 taken 0 dropped 0 queued 0 ring 0
lane 0 0 free 2 ring 0 queue 0 lent 0
lane 0 1 free 4 ring 0 queue 0 lent 0
lane 1 0 free 4 ring 0 queue 0 lent 0
lane 1 1 free 2 ring 0 queue 0 lent 0
ring 0 1 0 00000000000000000002000002000000000200000000000000020000020000000004000000000000000200000200000000060000000000000002000002000000000004000000010002000300000000000000000000000000000000000000000000000000000000000000000000000000000000000000
ring 0 1 1 00080000000000000000000000000000000a0000000000000000000000000000000c0000000000000000000000000000000e0000000000000000000000000000000000000000000000000000000000000000000000000000000000000000000000000000000000000000000000000000000000000000
end
";

/// Two links without a line, the first from the greater number. Their rings stand in the order of the links.
const TWO_LINKS: &[u8] = b"domain 0 nodes 1 pool 2
domain 1 nodes 1 pool 1
domain 2 nodes 1 pool 1
link 2 1 size 2
link 0 1 size 4
";

const TWO_LINKS_REPORT: &[u8] = b"mcapi-report 1 threads
domain 0 nodes 1 pool 2
domain 1 nodes 1 pool 1
domain 2 nodes 1 pool 1
link 2 1 size 2
link 0 1 size 4
journal 0
journal 1
journal 2
messages accepted 0 taken 0 dropped 0 queued 0 ring 0
lane 0 0 free 2 ring 0 queue 0 lent 0
lane 0 1 free 4 ring 0 queue 0 lent 0
lane 1 0 free 4 ring 0 queue 0 lent 0
lane 1 1 free 1 ring 0 queue 0 lent 0
lane 1 2 free 2 ring 0 queue 0 lent 0
lane 2 1 free 2 ring 0 queue 0 lent 0
lane 2 2 free 1 ring 0 queue 0 lent 0
ring 2 1 0 000000000000000000020000020000000002000000000000000200000200000000000200000001000000000000000000000000000000000000000000000000000000
ring 2 1 1 000400000000000000000000000000000006000000000000000000000000000000000000000000000000000000000000000000000000000000000000000000000000
ring 0 1 0 00000000000000000002000002000000000200000000000000020000020000000004000000000000000200000200000000060000000000000002000002000000000004000000010002000300000000000000000000000000000000000000000000000000000000000000000000000000000000000000
ring 0 1 1 00080000000000000000000000000000000a0000000000000000000000000000000c0000000000000000000000000000000e0000000000000000000000000000000000000000000000000000000000000000000000000000000000000000000000000000000000000000000000000000000000000000
end
";

#[test]
fn the_rings_of_each_link_on_threads(rt: HostRuntime) -> Result<(), Fail> {
    for words in BOTH {
        for (text, report) in &[(TURNS, TURNS_REPORT), (TWO_LINKS, TWO_LINKS_REPORT)] {
            let given = Given {
                words,
                text: *text,
                ..ON_THREADS
            };
            assert!(rt; comes_out(&rt, rt.alloc(), given, 0, *report)?);
            assert!(rt; is_right(&rt, rt.alloc(), *report)?);
        }
    }
    Ok(())
}

/// Whether a board is run to its end in both forms, so many times, with these lines in its report, which is right.
fn tells<T: Threads + Wait + Sync>(
    rt: &T,
    alloc: Global,
    text: &[u8],
    runs: u32,
    lines: &[u8],
) -> Result<bool, AllocError> {
    for words in BOTH {
        for _run in 0..runs {
            let given = Given {
                words,
                text,
                room: 4_000_000,
                ..ON_THREADS
            };
            let (status, output) = outcome_of(rt, alloc, given)?;
            let written = output.written();
            if status != 0 || !has(written, lines) || !is_right(rt, alloc, written)? {
                return Ok(false);
            }
        }
    }
    Ok(true)
}

/// Whether a text has these bytes somewhere.
fn has(text: &[u8], bytes: &[u8]) -> bool {
    text.windows(bytes.len().max(1)).any(|part| part == bytes)
}

const HOST_BOARD: &[u8] = b"domain 0 nodes 1 pool 2
domain 1 nodes 1 pool 2
domain 2 nodes 1 pool 2
link 0 1 size 256
link 0 2 size 256
0.0 create 1
0.0 one = lookup 1:0:1
0.0 two = lookup 2:0:1
0.0 wait one 4294967295
0.0 wait two 4294967295
1.0 create 1
1.0 host = lookup 0:0:1
1.0 wait host 4294967295
2.0 create 1
2.0 host = lookup 0:0:1
2.0 wait host 4294967295
";

const HOST_ROUND: &[u8] = b"0.0 try 4294967295 msg_send 1 1:0:1 1 7069
0.0 try 4294967295 msg_send 1 2:0:1 1 7069
0.0 try 4294967295 msg_recv 1 9
0.0 try 4294967295 msg_recv 1 9
1.0 try 4294967295 msg_send 1 0:0:1 1 706f
1.0 try 4294967295 msg_recv 1 9
2.0 try 4294967295 msg_send 1 0:0:1 1 706f
2.0 try 4294967295 msg_recv 1 9
";

/// The host sends 300 messages to each remote and receives as many from each.
#[test]
fn a_host_and_two_remotes_ten_times(rt: HostRuntime) -> Result<(), Fail> {
    let mut text = Vec::new(rt.alloc());
    text.extend_from_slice(HOST_BOARD)?;
    for _round in 0..300 {
        text.extend_from_slice(HOST_ROUND)?;
    }
    let messages = b"\nmessages accepted 1200 taken 1200 dropped 0 queued 0 ring 0\n";
    assert!(rt; tells(&rt, rt.alloc(), &text, 10, messages)?);
    Ok(())
}

/// Four frames with faults, on a link of four buffers.
const RAW_FRAMES: &[u8] = b"domain 0 nodes 1 pool 2
domain 1 nodes 1 pool 2
link 0 1 size 4
0.0 raw 1 000400000004000000000000080000000001010000000000
0.0 raw 1 000400000004000000000000080000004d09010000000000
0.0 raw 1 000400000004000000000000080000004d014d0000000000
0.0 raw 1 00040000350000000000000027000000000000000000000000000000000000000000000000000000000000000000000000000000000000
1.0 turn
";

/// Whenever the frames come and buffers come back, each is put.
const RAW_FRAMES_PUT: &[u8] = b"put 1 000400000004000000000000080000000001010000000000
call 1 ok
put 1 000400000004000000000000080000004d09010000000000
call 2 ok
put 1 000400000004000000000000080000004d014d0000000000
call 3 ok
put 1 00040000350000000000000027000000000000000000000000000000000000000000000000000000000000000000000000000000000000
call 4 ok
call 1 ok
";

/// Whether each frame is put, and the report is right.
fn are_put<T: Threads + Wait + Sync>(
    rt: &T,
    alloc: Global,
    words: &[&str],
) -> Result<bool, AllocError> {
    let given = Given {
        words,
        text: RAW_FRAMES,
        ..ON_THREADS
    };
    let (status, output) = outcome_of(rt, alloc, given)?;
    let report = output.written();
    let told = lines_of(alloc, report, &[b"put ", b"call "])?;
    Ok(status == 0 && told.as_slice() == RAW_FRAMES_PUT && is_right(rt, alloc, report)?)
}

#[test]
fn raw_frames_on_threads(rt: HostRuntime) -> Result<(), Fail> {
    for words in BOTH {
        for _run in 0..10 {
            assert!(rt; are_put(&rt, rt.alloc(), words)?);
        }
    }
    Ok(())
}

/// Two domains that need each other's lines between two tries, which by turns in the order of the file come too late: all tries of the
/// first have failed by then. A run on one thread would answer `pending` at line 3 and `peer_invalid` at line 4 of domain 0.
const EACH_OTHER: &[u8] = b"domain 0 nodes 1 pool 2
domain 1 nodes 1 pool 2
link 0 1 size 4
0.0 create 1
0.0 far = lookup 1:0:1
0.0 try 3000000 test far
0.0 msg_send 1 1:0:1 1 7069
0.0 try 3000000 msg_recv 1 9
1.0 create 1
1.0 far = lookup 0:0:1
1.0 try 3000000 test far
1.0 try 3000000 msg_recv 1 9
1.0 msg_send 1 0:0:1 1 706f
";

/// The one thing here that tells a run on threads from a serial run under its heading.
#[test]
fn two_domains_run_beside_each_other(rt: HostRuntime) -> Result<(), Fail> {
    let messages = b"\nmessages accepted 2 taken 2 dropped 0 queued 0 ring 0\n";
    assert!(rt; tells(&rt, rt.alloc(), EACH_OTHER, 1, messages)?);
    Ok(())
}
