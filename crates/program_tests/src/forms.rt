use outer_io::{MemSink, MemSource};
use scenario_cli::mcrun;
use std::alloc::{AllocError, Global};
use std::process::Abort;
use std::sync::Wait;
use std::test::Fail;
use std::thread::Threads;

mod calls;
mod channels;
mod counts;
mod eight_linked;
mod failing;
mod frame;
mod images;
mod large;
mod linked;
mod loads;
mod payloads;
mod refusals;
mod relay;
mod reports;
mod requests;
mod threads;
mod unlinked;

/// Two endpoints and one message.
const MESSAGE: &[u8] =
    b"domain 0 nodes 1 pool 2\n0.0 create 1\n0.0 create 2\n0.0 msg_send 1 0:0:2 1 6869\n0.0 msg_recv 2 488\n";

const MESSAGE_REPORT: &[u8] = b"mcapi-report 1 serial
domain 0 nodes 1 pool 2
0.0 create 1
0.0 create 2
0.0 msg_send 1 0:0:2 1 6869
0.0 msg_recv 2 488
journal 0
idle 1
call 1 ok 1024
idle 1
call 2 ok 1025
idle 1
put 0 0004000001040000000000000a0000004d010101000000006869
call 3 ok
turn
see 0 1
take 0 0004000001040000000000000a0000004d010101000000006869 queued
call 4 ok 2 6869
messages accepted 1 taken 1 dropped 0 queued 0 ring 0
lane 0 0 free 2 ring 0 queue 0 lent 0
end
";

/// One buffer, so that each message waits for the one before it. What no call may do is told by its answer.
const ONE_BUFFER: &[u8] = b"domain 3 nodes 2 pool 1
3.0 create 1
3.1 create 7
3.0 create 1
3.0 msg_send 2 3:1:7 1 00
3.0 msg_send 1 3:1:8 1 00
3.0 msg_send 1 4:1:7 1 00
3.0 msg_send 1 3:1:7 1 666972737420
3.0 msg_send 1 3:1:7 1 7365636f6e64
3.1 msg_recv 7 3
3.0 msg_send 1 3:1:7 1 -
3.1 msg_recv 7 0
3.1 msg_recv 7 9000
3.0 msg_recv 7 9000
";

const ONE_BUFFER_REPORT: &[u8] = b"mcapi-report 1 serial
domain 3 nodes 2 pool 1
3.0 create 1
3.1 create 7
3.0 create 1
3.0 msg_send 2 3:1:7 1 00
3.0 msg_send 1 3:1:8 1 00
3.0 msg_send 1 4:1:7 1 00
3.0 msg_send 1 3:1:7 1 666972737420
3.0 msg_send 1 3:1:7 1 7365636f6e64
3.1 msg_recv 7 3
3.0 msg_send 1 3:1:7 1 -
3.1 msg_recv 7 0
3.1 msg_recv 7 9000
3.0 msg_recv 7 9000
journal 3
idle 1
call 1 ok 1024
idle 1
call 2 ok 1025
idle 1
call 3 exists_already
idle 1
call 4 endp_invalid
idle 1
call 5 peer_invalid
idle 1
call 6 peer_invalid
idle 1
put 3 0004000001040000000000000e0000004d01010100000000666972737420
call 7 ok
turn
see 3 1
take 3 0004000001040000000000000e0000004d01010100000000666972737420 queued
call 8 no_buffer
idle 1
call 9 truncated 6 666972
turn
back 3 1
put 3 000400000104000000000000080000004d01010100000000
call 10 ok
turn
see 3 1
take 3 000400000104000000000000080000004d01010100000000 queued
call 11 ok 0 -
turn
back 3 1
call 12 empty
idle 1
call 13 endp_invalid
messages accepted 2 taken 2 dropped 0 queued 0 ring 0
lane 3 3 free 1 ring 0 queue 0 lent 0
end
";

/// One domain of another number, without a call.
const NO_CALL: &[u8] = b"domain 3 nodes 1 pool 1\n";

const NO_CALL_REPORT: &[u8] = b"mcapi-report 1 serial
domain 3 nodes 1 pool 1
journal 3
messages accepted 0 taken 0 dropped 0 queued 0 ring 0
lane 3 3 free 1 ring 0 queue 0 lent 0
end
";

const USAGE: &[u8] =
    b"usage: mcrun run | run --serial | check | frame | ring | load N | run --bells | relay | calls\n";

/// What comes of an empty text.
const REFUSED: &[u8] = b"refused 1 domain\n";

/// The number of no call of a source or sink.
const NEVER: u64 = 1_000_000_000;

/// A call of the program: the words, the text that comes, and what the streams do.
#[derive(Clone, Copy)]
struct Given<'a> {
    words: &'a [&'a str],
    text: &'a [u8],
    failing_read: u64,
    failing_write: u64,
    step: usize,
    room: usize,
}

const SERIAL: &[&str] = &["run", "--serial"];

const CHECK: &[&str] = &["check"];

/// The form `run --serial` on no text, with streams that fail nowhere.
const EMPTY: Given<'static> = Given {
    words: SERIAL,
    text: b"",
    failing_read: NEVER,
    failing_write: NEVER,
    step: 4096,
    room: 1_000_000,
};

/// The form `run --serial` on the scenario of one message.
const ONE_MESSAGE: Given<'static> = Given {
    words: SERIAL,
    text: MESSAGE,
    failing_read: NEVER,
    failing_write: NEVER,
    step: 4096,
    room: 1_000_000,
};

/// No words, with a text that is a scenario.
const NO_WORDS: Given<'static> = Given {
    words: &[],
    text: MESSAGE,
    failing_read: NEVER,
    failing_write: NEVER,
    step: 4096,
    room: 1_000_000,
};

/// The form `run --serial` on a text, with streams that fail nowhere.
fn serial(text: &[u8]) -> Given<'_> {
    Given { text, ..EMPTY }
}

fn words_of(alloc: Global, texts: &[&str]) -> Result<Vec<String>, AllocError> {
    let mut words = Vec::new(alloc);
    for text in texts {
        words.push(String::from_str(alloc, text)?)?;
    }
    Ok(words)
}

/// The status and the output of a call.
fn outcome_of<T: Threads + Wait + Sync>(
    rt: &T,
    alloc: Global,
    given: Given<'_>,
) -> Result<(u8, MemSink), AllocError> {
    let words = words_of(alloc, given.words)?;
    let text = Vec::from_slice(alloc, given.text)?;
    let failing_reads = Vec::from_slice(alloc, &[given.failing_read])?;
    let failing_writes = Vec::from_slice(alloc, &[given.failing_write])?;
    let step = given.step.max(1);
    let mut input = MemSource::new(text, failing_reads, step);
    let Ok(mut output) = MemSink::new(alloc, failing_writes, step, given.room) else {
        return Err(AllocError);
    };
    let status = mcrun(rt, alloc, &words, &mut input, &mut output);
    Ok((status, output))
}

/// Whether this status and this output come of a call.
fn comes_out<T: Threads + Wait + Sync>(
    rt: &T,
    alloc: Global,
    given: Given<'_>,
    status: u8,
    written: &[u8],
) -> Result<bool, AllocError> {
    let (answer, output) = outcome_of(rt, alloc, given)?;
    Ok(answer == status && output.written() == written)
}

/// The lines of a report that begin with one of these words.
fn lines_of(alloc: Global, report: &[u8], fronts: &[&[u8]]) -> Result<Vec<u8>, AllocError> {
    let mut lines = Vec::new(alloc);
    for line in report.split(|byte| *byte == b'\n') {
        if fronts.iter().any(|front| line.starts_with(front)) {
            lines.extend_from_slice(line)?;
            lines.push(b'\n')?;
        }
    }
    Ok(lines)
}

/// Whether a report is right.
fn is_right<T: Threads + Wait + Sync>(
    rt: &T,
    alloc: Global,
    report: &[u8],
) -> Result<bool, AllocError> {
    let given = Given {
        words: CHECK,
        ..serial(report)
    };
    comes_out(rt, alloc, given, 0, b"right\n")
}

/// Whether a scenario is run to its end, and its report is right and ends so.
fn ends_with<T: Threads + Wait + Sync>(
    rt: &T,
    alloc: Global,
    text: &[u8],
    end: &[u8],
) -> Result<bool, AllocError> {
    let (status, output) = outcome_of(rt, alloc, serial(text))?;
    let report = output.written();
    Ok(status == 0 && report.ends_with(end) && is_right(rt, alloc, report)?)
}

/// Whether this status and this output come of a text of one byte, so many times.
fn repeated_comes_out<T: Threads + Wait + Sync>(
    rt: &T,
    alloc: Global,
    words: &[&str],
    (byte, length): (u8, usize),
    status: u8,
    written: &[u8],
) -> Result<bool, AllocError> {
    let text = Vec::from_elem(alloc, byte, length)?;
    let given = Given {
        words,
        ..serial(&text)
    };
    comes_out(rt, alloc, given, status, written)
}

/// Asserts the status and the line of each call.
fn assert_lines<T: Threads + Wait + Sync + Abort>(
    rt: &T,
    alloc: Global,
    rows: &[(Given<'_>, u8, &str)],
) -> Result<(), Fail> {
    for (i, (given, status, line)) in rows.iter().enumerate() {
        assert!(rt;
            comes_out(rt, alloc, *given, *status, line.as_bytes())?,
            "row {i}"
        );
    }
    Ok(())
}

/// Asserts the status and the line that come of each text of one byte, so many times.
fn assert_limits<T: Threads + Wait + Sync + Abort>(
    rt: &T,
    alloc: Global,
    words: &[&str],
    rows: &[((u8, usize), u8, &str)],
) -> Result<(), Fail> {
    for (repeated, status, line) in rows {
        assert!(rt; repeated_comes_out(rt, alloc, words, *repeated, *status, line.as_bytes())?);
    }
    Ok(())
}

/// Words and a text, and the status and the output that come of them.
type Outcome<'a> = (&'a [&'a str], &'a [u8], u8, &'a [u8]);

static OUTCOMES: [Outcome<'static>; 14] = [
    (SERIAL, MESSAGE, 0, MESSAGE_REPORT),
    (SERIAL, ONE_BUFFER, 0, ONE_BUFFER_REPORT),
    (SERIAL, NO_CALL, 0, NO_CALL_REPORT),
    (SERIAL, b"domain 3 nodes 1 pool 1", 0, NO_CALL_REPORT),
    (&["run", "fast"], MESSAGE, 2, USAGE),
    (SERIAL, b"", 3, REFUSED),
    (&[], MESSAGE, 2, USAGE),
    (&["--serial", "run"], MESSAGE, 2, USAGE),
    (&["run", "--serial", ""], MESSAGE, 2, USAGE),
    (&["run", "frame"], MESSAGE, 2, USAGE),
    (&["frame", "x"], MESSAGE, 2, USAGE),
    (&["frame", "frame"], MESSAGE, 2, USAGE),
    (&["Frame"], MESSAGE, 2, USAGE),
    (&["--serial"], MESSAGE, 2, USAGE),
];

fn assert_outcomes<T: Threads + Wait + Sync + Abort>(
    rt: &T,
    alloc: Global,
    rows: &[Outcome<'_>],
) -> Result<(), Fail> {
    for (i, (words, text, status, written)) in rows.iter().enumerate() {
        let given = Given {
            words: *words,
            ..serial(*text)
        };
        assert!(rt; comes_out(rt, alloc, given, *status, *written)?, "row {i}");
    }
    Ok(())
}

#[test]
fn statuses_and_outputs(rt: HostRuntime) -> Result<(), Fail> {
    assert_outcomes(&rt, rt.alloc(), &OUTCOMES)
}

/// A call, its status, and what was due, of which the first so many bytes come.
type Cut<'a> = (Given<'a>, u8, &'a [u8], usize);

static CUTS: [Cut<'static>; 11] = [
    (
        Given {
            failing_read: 0,
            ..ONE_MESSAGE
        },
        4,
        MESSAGE_REPORT,
        0,
    ),
    (
        Given {
            failing_read: 1,
            ..ONE_MESSAGE
        },
        4,
        MESSAGE_REPORT,
        0,
    ),
    (
        Given {
            failing_read: 2,
            ..ONE_MESSAGE
        },
        0,
        MESSAGE_REPORT,
        MESSAGE_REPORT.len(),
    ),
    (
        Given {
            failing_write: 0,
            ..ONE_MESSAGE
        },
        5,
        MESSAGE_REPORT,
        0,
    ),
    (
        Given {
            failing_write: 14,
            step: 1,
            ..ONE_MESSAGE
        },
        5,
        MESSAGE_REPORT,
        14,
    ),
    (
        Given {
            room: MESSAGE_REPORT.len(),
            ..ONE_MESSAGE
        },
        0,
        MESSAGE_REPORT,
        MESSAGE_REPORT.len(),
    ),
    (
        Given {
            room: MESSAGE_REPORT.len() - 1,
            ..ONE_MESSAGE
        },
        5,
        MESSAGE_REPORT,
        MESSAGE_REPORT.len() - 1,
    ),
    (
        Given {
            room: REFUSED.len(),
            ..EMPTY
        },
        3,
        REFUSED,
        REFUSED.len(),
    ),
    (
        Given {
            room: REFUSED.len() - 1,
            ..EMPTY
        },
        5,
        REFUSED,
        REFUSED.len() - 1,
    ),
    (
        Given {
            room: USAGE.len(),
            ..NO_WORDS
        },
        2,
        USAGE,
        USAGE.len(),
    ),
    (
        Given {
            room: USAGE.len() - 1,
            ..NO_WORDS
        },
        5,
        USAGE,
        USAGE.len() - 1,
    ),
];

fn is_cut<T: Threads + Wait + Sync>(
    rt: &T,
    alloc: Global,
    (given, status, due, length): Cut<'_>,
) -> Result<bool, AllocError> {
    match due.get(..length) {
        Some(written) => comes_out(rt, alloc, given, status, written),
        None => Ok(false),
    }
}

/// What a stream that fails leaves: the status, and the first bytes of what was due.
#[test]
fn streams_that_fail(rt: HostRuntime) -> Result<(), Fail> {
    for (i, row) in CUTS.iter().enumerate() {
        assert!(rt; is_cut(&rt, rt.alloc(), *row)?, "row {i}");
    }
    Ok(())
}

/// How many bytes are read, and the status and the output that come of them.
static INPUTS: [(usize, u8, &[u8]); 2] = [(8_388_608, 3, b"refused 1 long\n"), (8_388_609, 7, b"")];

/// An input of the most bytes is read, and one byte more is not.
#[test]
fn limit_of_the_input(rt: HostRuntime) -> Result<(), Fail> {
    for (length, status, written) in &INPUTS {
        let repeated = (b'7', *length);
        assert!(rt; repeated_comes_out(&rt, rt.alloc(), SERIAL, repeated, *status, written)?);
    }
    Ok(())
}
