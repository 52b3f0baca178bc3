//! The form `relay`: packets that arrive, and texts that tell no relay.

use super::payloads::{Pieces, joined};
use super::{
    EMPTY, Given, Outcome, USAGE, assert_limits, assert_lines, assert_outcomes, comes_out,
    is_right, lines_of, outcome_of, serial,
};
use std::alloc::{AllocError, Global};
use std::sync::Wait;
use std::test::Fail;
use std::thread::Threads;

const RELAY: &[&str] = &["relay"];

const THREADS_HEADING: &[u8] = b"mcapi-report 1 threads\n";

/// How the lines of a report begin that say what became of channels and messages.
const FRONTS: [&[u8]; 2] = [b"channel ", b"messages "];

/// A text, and what is due of it.
type Relay<'a> = (Pieces<'a>, &'a [u8]);

static RELAYS: [Relay<'static>; 5] = [
    (
        &[("relay 2 size 4\n61\n62\n", 1)],
        b"channel 0 1 accepted 2 taken 2 dropped 0 queued 0 ring 0
channel 1 1 accepted 2 taken 2 dropped 0 queued 0 ring 0
messages accepted 0 taken 0 dropped 0 queued 0 ring 0
",
    ),
    // No bytes, one full frame, and as many as two frames carry, over rings of two buffers.
    (
        &[
            ("relay 7 size 2\n-\n", 1),
            ("a5", 488),
            ("\n", 1),
            ("5A", 968),
        ],
        b"channel 0 1 accepted 3 taken 3 dropped 0 queued 0 ring 0
channel 1 1 accepted 3 taken 3 dropped 0 queued 0 ring 0
channel 2 1 accepted 3 taken 3 dropped 0 queued 0 ring 0
channel 3 1 accepted 3 taken 3 dropped 0 queued 0 ring 0
channel 4 1 accepted 3 taken 3 dropped 0 queued 0 ring 0
channel 5 1 accepted 3 taken 3 dropped 0 queued 0 ring 0
channel 6 1 accepted 3 taken 3 dropped 0 queued 0 ring 0
messages accepted 0 taken 0 dropped 0 queued 0 ring 0
",
    ),
    // No packet.
    (
        &[("relay 1 size 2", 1)],
        b"channel 0 1 accepted 0 taken 0 dropped 0 queued 0 ring 0
messages accepted 0 taken 0 dropped 0 queued 0 ring 0
",
    ),
    // The longest packet, which needs 17 frames.
    (
        &[("relay 3 size 32\n", 1), ("07", 8192), ("\n", 1)],
        b"channel 0 1 accepted 1 taken 1 dropped 0 queued 0 ring 0
channel 1 1 accepted 1 taken 1 dropped 0 queued 0 ring 0
channel 2 1 accepted 1 taken 1 dropped 0 queued 0 ring 0
messages accepted 0 taken 0 dropped 0 queued 0 ring 0
",
    ),
    // More packets than the ring has buffers.
    (
        &[("relay 1 size 256\n", 1), ("00112233\n", 700)],
        b"channel 0 1 accepted 700 taken 700 dropped 0 queued 0 ring 0
messages accepted 0 taken 0 dropped 0 queued 0 ring 0
",
    ),
];

/// Whether all packets of a text arrive, and the report is right.
fn arrive<T: Threads + Wait + Sync>(
    rt: &T,
    alloc: Global,
    (text, due): Relay<'_>,
) -> Result<bool, AllocError> {
    let text = joined(alloc, text)?;
    let given = Given {
        words: RELAY,
        text: &text,
        room: 4_000_000,
        ..EMPTY
    };
    let (status, output) = outcome_of(rt, alloc, given)?;
    let report = output.written();
    let told = lines_of(alloc, report, &FRONTS)?;
    Ok(
        status == 0
            && report.starts_with(THREADS_HEADING)
            && told.as_slice() == due
            && is_right(rt, alloc, report)?,
    )
}

#[test]
fn all_packets_arrive(rt: HostRuntime) -> Result<(), Fail> {
    for (i, row) in RELAYS.iter().enumerate() {
        assert!(rt; arrive(&rt, rt.alloc(), *row)?, "row {i}");
    }
    Ok(())
}

/// Words near those of the form, and texts that tell no relay: the first line that is refused and its first reason.
static OUTCOMES: [Outcome<'static>; 26] = [
    (&["relay", "relay"], b"relay 1 size 2\n", 2, USAGE),
    (&["relay", "2"], b"relay 1 size 2\n", 2, USAGE),
    (&["Relay"], b"relay 1 size 2\n", 2, USAGE),
    (&["relay "], b"relay 1 size 2\n", 2, USAGE),
    (&["run", "relay"], b"relay 1 size 2\n", 2, USAGE),
    (RELAY, b"", 3, b"refused 1 form\n"),
    (RELAY, b"\nrelay 1 size 2\n", 3, b"refused 1 form\n"),
    (RELAY, b"relay 2 size\n", 3, b"refused 1 form\n"),
    (RELAY, b"relay  2 size 4\n", 3, b"refused 1 form\n"),
    (RELAY, b"relay 2 size 4 \n", 3, b"refused 1 form\n"),
    (RELAY, b" relay 2 size 4\n", 3, b"refused 1 form\n"),
    (RELAY, b"relay 9 size 4 5\n", 3, b"refused 1 form\n"),
    (RELAY, b"relays 9 size 4\n", 3, b"refused 1 form\n"),
    (RELAY, b"relay 9 sizes 4\n", 3, b"refused 1 form\n"),
    (
        RELAY,
        b"# a comment\nrelay 1 size 2\n",
        3,
        b"refused 1 form\n",
    ),
    (RELAY, b"relay 0 size 2\n", 3, b"refused 1 number\n"),
    (RELAY, b"relay 8 size 2\n", 3, b"refused 1 number\n"),
    (RELAY, b"relay 02 size 2\n", 3, b"refused 1 number\n"),
    (RELAY, b"relay 2 size 1\n", 3, b"refused 1 number\n"),
    (RELAY, b"relay 2 size 6\n", 3, b"refused 1 number\n"),
    (RELAY, b"relay 2 size 512\nx\n", 3, b"refused 1 number\n"),
    (RELAY, b"relay 2 size 4\r\n61\r\n", 3, b"refused 1 number\n"),
    (RELAY, b"relay 2 size 4\n61\r\n", 3, b"refused 2 bytes\n"),
    (
        RELAY,
        b"relay 2 size 4\n61\n\n62\n",
        3,
        b"refused 3 bytes\n",
    ),
    (RELAY, b"relay 2 size 4\n61\n616", 3, b"refused 3 bytes\n"),
    (RELAY, b"relay 2 size 4\n--\n6g\n", 3, b"refused 2 bytes\n"),
];

#[test]
fn words_and_texts_of_no_relay(rt: HostRuntime) -> Result<(), Fail> {
    assert_outcomes(&rt, rt.alloc(), &OUTCOMES)
}

/// Long texts that tell no relay, and the refusal of each.
static LONG: [Relay<'static>; 5] = [
    // One byte more than two frames carry.
    (
        &[("relay 7 size 2\n", 1), ("00", 969), ("\n", 1)],
        b"refused 2 bytes\n",
    ),
    // 17 frames, and a ring of 16.
    (
        &[("relay 1 size 16\n", 1), ("00", 8192), ("\n", 1)],
        b"refused 2 bytes\n",
    ),
    (
        &[("relay 1 size 256\n-\n", 1), ("00", 8193), ("\n", 1)],
        b"refused 3 bytes\n",
    ),
    // One packet too many, which is asked before its bytes are.
    (
        &[("relay 1 size 2\n", 1), ("-\n", 100_000), ("x\n", 1)],
        b"refused 100002 many\n",
    ),
    // The line before it.
    (
        &[("relay 1 size 2\n", 1), ("-\n", 99_999), ("x\n-\n", 1)],
        b"refused 100001 bytes\n",
    ),
];

fn is_refused<T: Threads + Wait + Sync>(
    rt: &T,
    alloc: Global,
    (text, line): Relay<'_>,
) -> Result<bool, AllocError> {
    let text = joined(alloc, text)?;
    let given = Given {
        words: RELAY,
        ..serial(&text)
    };
    comes_out(rt, alloc, given, 3, line)
}

#[test]
fn long_texts_of_no_relay(rt: HostRuntime) -> Result<(), Fail> {
    for (i, row) in LONG.iter().enumerate() {
        assert!(rt; is_refused(&rt, rt.alloc(), *row)?, "row {i}");
    }
    Ok(())
}

/// The form on a text with a packet that is no bytes.
const NO_BYTES: Given<'static> = Given {
    words: RELAY,
    text: b"relay 1 size 2\n6\n",
    ..EMPTY
};

/// Streams that fail: the status, and what was written.
static FAILING: [(Given<'static>, u8, &str); 4] = [
    (
        Given {
            failing_read: 1,
            ..NO_BYTES
        },
        4,
        "",
    ),
    (
        Given {
            failing_write: 0,
            ..NO_BYTES
        },
        5,
        "",
    ),
    (
        Given {
            room: 15,
            ..NO_BYTES
        },
        5,
        "refused 2 bytes",
    ),
    (
        Given {
            room: 16,
            ..NO_BYTES
        },
        3,
        "refused 2 bytes\n",
    ),
];

/// How many bytes are read, and the status and the output that come of them.
static LIMITS: [((u8, usize), u8, &str); 2] = [
    ((b'7', 8_388_608), 3, "refused 1 form\n"),
    ((b'7', 8_388_609), 7, ""),
];

#[test]
fn streams_that_fail_and_the_limit_of_the_input(rt: HostRuntime) -> Result<(), Fail> {
    assert_lines(&rt, rt.alloc(), &FAILING)?;
    assert_limits(&rt, rt.alloc(), RELAY, &LIMITS)
}
