//! The form `calls`: calls that are carried out, and texts that tell no calls.

use super::payloads::{Pieces, joined};
use super::{
    EMPTY, Given, Outcome, USAGE, assert_limits, assert_lines, assert_outcomes, comes_out,
    is_right, lines_of, outcome_of, serial,
};
use std::alloc::{AllocError, Global};
use std::sync::Wait;
use std::test::Fail;
use std::thread::Threads;

const CALLS: &[&str] = &["calls"];

const THREADS_HEADING: &[u8] = b"mcapi-report 1 threads\n";

/// A text, and what is due of it.
type Asked<'a> = (Pieces<'a>, &'a [u8]);

/// Calls of one client, in which there is one order, or of none; and all lines behind the report.
static LINES: [Asked<'static>; 9] = [
    (&[("calls 1 size 4 repeat 2\n1 0 5\n1 0 7\n", 1)], TWO_CALLS),
    (&[("calls 1 size 4 repeat 1\n1 0 5\n1 0 7", 1)], TWO_CALLS),
    (&[("calls 1 size 8 repeat 3\n1 0 5\n1 0 7\n", 1)], TWO_CALLS),
    (
        &[("calls 1 size 256 repeat 4\n1 0 5\n1 0 7\n", 1)],
        TWO_CALLS,
    ),
    // The second sum is over the greatest number.
    (
        &[(
            "calls 1 size 4 repeat 2\n1 0 18446744073709551615\n1 0 1\n",
            1,
        )],
        b"calls 1
carried 1 1 0 18446744073709551615 done 18446744073709551615
carried 1 2 0 1 over 18446744073709551615
got 1 1 done 18446744073709551615
got 1 2 over 18446744073709551615
cell 0 18446744073709551615
end
",
    ),
    // A cell has a line where a call names it, though its value is 0.
    (
        &[(
            "calls 1 size 4 repeat 3\n1 15 0\n1 3 9\n1 3 18446744073709551615\n1 3 1\n",
            1,
        )],
        b"calls 1
carried 1 1 15 0 done 0
carried 1 2 3 9 done 9
carried 1 3 3 18446744073709551615 over 9
carried 1 4 3 1 done 10
got 1 1 done 0
got 1 2 done 9
got 1 3 over 9
got 1 4 done 10
cell 3 10
cell 15 0
end
",
    ),
    // Of two clients one calls.
    (
        &[("calls 2 size 4 repeat 2\n2 7 1\n2 7 1\n", 1)],
        b"calls 2
carried 2 1 7 1 done 1
carried 2 2 7 1 done 2
got 2 1 done 1
got 2 2 done 2
cell 7 2
end
",
    ),
    // No call.
    (
        &[("calls 1 size 4 repeat 4\n", 1)],
        b"calls 1
end
",
    ),
    (
        &[("calls 7 size 4 repeat 1", 1)],
        b"calls 7
end
",
    ),
];

const TWO_CALLS: &[u8] = b"calls 1
carried 1 1 0 5 done 5
carried 1 2 0 7 done 12
got 1 1 done 5
got 1 2 done 12
cell 0 12
end
";

/// The report, and the lines of calls behind it. No line of a report begins with `calls`.
fn parts_of(written: &[u8]) -> (&[u8], &[u8]) {
    for at in 0..written.len() {
        if written[at..].starts_with(b"calls ") {
            return (&written[..at], &written[at..]);
        }
    }
    (written, &[])
}

/// Whether a right report comes of a text, with these lines behind it: all that begin with one of these words, or all.
fn come_out<T: Threads + Wait + Sync>(
    rt: &T,
    alloc: Global,
    (text, due): Asked<'_>,
    fronts: &[&[u8]],
) -> Result<bool, AllocError> {
    let text = joined(alloc, text)?;
    let given = Given {
        words: CALLS,
        text: &text,
        room: 4_000_000,
        ..EMPTY
    };
    let (status, output) = outcome_of(rt, alloc, given)?;
    let (report, behind) = parts_of(output.written());
    let lines = lines_of(alloc, behind, fronts)?;
    Ok(
        status == 0
            && report.starts_with(THREADS_HEADING)
            && lines.as_slice() == due
            && is_right(rt, alloc, report)?,
    )
}

/// How the lines behind the report begin.
const ALL: [&[u8]; 5] = [b"calls ", b"carried ", b"got ", b"cell ", b"end"];

#[test]
fn all_calls_are_carried_out(rt: HostRuntime) -> Result<(), Fail> {
    for (i, row) in LINES.iter().enumerate() {
        assert!(rt; come_out(&rt, rt.alloc(), *row, &ALL)?, "row {i}");
    }
    Ok(())
}

/// Calls of three clients on one cell, for each number of repeats: they are carried out in some order, and the last value is the same.
static ONE_CELL: [Asked<'static>; 4] = [
    (&[("calls 3 size 4 repeat 1\n", 1), THREE_CLIENTS], SUM),
    (&[("calls 3 size 4 repeat 2\n", 1), THREE_CLIENTS], SUM),
    (&[("calls 3 size 4 repeat 3\n", 1), THREE_CLIENTS], SUM),
    (&[("calls 3 size 4 repeat 4\n", 1), THREE_CLIENTS], SUM),
];

/// So many times a call of each client.
const THREE_CLIENTS: (&str, usize) = ("1 6 1\n2 6 10\n3 6 100\n", 4);

const SUM: &[u8] = b"cell 6 444\n";

#[test]
fn three_clients_share_a_cell(rt: HostRuntime) -> Result<(), Fail> {
    for (i, row) in ONE_CELL.iter().enumerate() {
        assert!(rt; come_out(&rt, rt.alloc(), *row, &[b"cell "])?, "row {i}");
    }
    Ok(())
}

/// Words near those of the form, and texts that tell no calls: the first line that is refused and its first reason.
static OUTCOMES: [Outcome<'static>; 27] = [
    (&["calls", "calls"], b"calls 1 size 4 repeat 1\n", 2, USAGE),
    (&["calls", "1"], b"calls 1 size 4 repeat 1\n", 2, USAGE),
    (&["Calls"], b"calls 1 size 4 repeat 1\n", 2, USAGE),
    (&["call"], b"calls 1 size 4 repeat 1\n", 2, USAGE),
    (&["run", "calls"], b"calls 1 size 4 repeat 1\n", 2, USAGE),
    (CALLS, b"", 3, b"refused 1 form\n"),
    (
        CALLS,
        b"\ncalls 1 size 4 repeat 1\n",
        3,
        b"refused 1 form\n",
    ),
    (CALLS, b"relay 1 size 4\n", 3, b"refused 1 form\n"),
    (CALLS, b"calls 1 size 4 repeat\n", 3, b"refused 1 form\n"),
    (CALLS, b"calls 9 size 4  repeat 1\n", 3, b"refused 1 form\n"),
    (CALLS, b"calls 9 size 4 repeats 1\n", 3, b"refused 1 form\n"),
    (
        CALLS,
        b"calls 0 size 4 repeat 1\n",
        3,
        b"refused 1 number\n",
    ),
    (
        CALLS,
        b"calls 8 size 4 repeat 1\n",
        3,
        b"refused 1 number\n",
    ),
    (
        CALLS,
        b"calls 1 size 2 repeat 1\n",
        3,
        b"refused 1 number\n",
    ),
    (
        CALLS,
        b"calls 1 size 6 repeat 1\n",
        3,
        b"refused 1 number\n",
    ),
    (
        CALLS,
        b"calls 1 size 4 repeat 0\n",
        3,
        b"refused 1 number\n",
    ),
    (
        CALLS,
        b"calls 1 size 4 repeat 5\nx\n",
        3,
        b"refused 1 number\n",
    ),
    (
        CALLS,
        b"calls 1 size 4 repeat 1\r\n",
        3,
        b"refused 1 number\n",
    ),
    (
        CALLS,
        b"calls 2 size 4 repeat 1\n1 0 1\n3 0 1\n",
        3,
        b"refused 3 number\n",
    ),
    (
        CALLS,
        b"calls 2 size 4 repeat 1\n0 0 1\n",
        3,
        b"refused 2 number\n",
    ),
    (
        CALLS,
        b"calls 2 size 4 repeat 1\n1 16 1\n",
        3,
        b"refused 2 number\n",
    ),
    (
        CALLS,
        b"calls 2 size 4 repeat 1\n1 0 18446744073709551616\n",
        3,
        b"refused 2 number\n",
    ),
    (
        CALLS,
        b"calls 2 size 4 repeat 1\n1 0 01\n",
        3,
        b"refused 2 number\n",
    ),
    (
        CALLS,
        b"calls 2 size 4 repeat 1\n1 0 1\n\n2 0 1\n",
        3,
        b"refused 3 form\n",
    ),
    (
        CALLS,
        b"calls 2 size 4 repeat 1\n1 0\n",
        3,
        b"refused 2 form\n",
    ),
    (
        CALLS,
        b"calls 2 size 4 repeat 1\n1 0 1 1",
        3,
        b"refused 2 form\n",
    ),
    (
        CALLS,
        b"calls 2 size 4 repeat 1\n# a comment\n",
        3,
        b"refused 2 number\n",
    ),
];

#[test]
fn words_and_texts_of_no_calls(rt: HostRuntime) -> Result<(), Fail> {
    assert_outcomes(&rt, rt.alloc(), &OUTCOMES)
}

/// Texts with one call too many, and the refusal of each: the number of a line is asked last.
static LONG: [Asked<'static>; 3] = [
    (
        &[("calls 1 size 4 repeat 1\n", 1), ("1 0 1\n", 100_001)],
        b"refused 100002 many\n",
    ),
    (
        &[
            ("calls 1 size 4 repeat 1\n", 1),
            ("1 0 1\n", 100_000),
            ("2 0 1\n", 1),
        ],
        b"refused 100002 number\n",
    ),
    (
        &[
            ("calls 1 size 4 repeat 1\n", 1),
            ("1 0 1\n", 100_000),
            ("1 0\n", 1),
        ],
        b"refused 100002 form\n",
    ),
];

fn is_refused<T: Threads + Wait + Sync>(
    rt: &T,
    alloc: Global,
    (text, line): Asked<'_>,
) -> Result<bool, AllocError> {
    let text = joined(alloc, text)?;
    let given = Given {
        words: CALLS,
        ..serial(&text)
    };
    comes_out(rt, alloc, given, 3, line)
}

#[test]
fn long_texts_of_no_calls(rt: HostRuntime) -> Result<(), Fail> {
    for (i, row) in LONG.iter().enumerate() {
        assert!(rt; is_refused(&rt, rt.alloc(), *row)?, "row {i}");
    }
    Ok(())
}

/// The form on a text with a call of no client.
const NO_CLIENT: Given<'static> = Given {
    words: CALLS,
    text: b"calls 1 size 4 repeat 1\n2 0 1\n",
    ..EMPTY
};

/// The form on a text with a call.
const ONE_CALL: Given<'static> = Given {
    words: CALLS,
    text: b"calls 1 size 4 repeat 1\n1 0 1\n",
    ..EMPTY
};

/// Streams that fail: the status, and what was written.
static FAILING: [(Given<'static>, u8, &str); 4] = [
    (
        Given {
            failing_read: 1,
            ..ONE_CALL
        },
        4,
        "",
    ),
    (
        Given {
            failing_write: 0,
            ..ONE_CALL
        },
        5,
        "",
    ),
    (
        Given {
            room: 23,
            ..ONE_CALL
        },
        5,
        "mcapi-report 1 threads\n",
    ),
    (
        Given {
            room: 16,
            ..NO_CLIENT
        },
        5,
        "refused 2 number",
    ),
];

/// How many bytes are read, and the status and the output that come of them.
static LIMITS: [((u8, usize), u8, &str); 2] = [
    ((b'7', 8_388_608), 3, "refused 1 form\n"),
    ((b'7', 8_388_609), 7, ""),
];

#[test]
fn streams_that_fail_and_the_limit_of_the_input(rt: HostRuntime) -> Result<(), Fail> {
    assert_lines(&rt, rt.alloc(), &FAILING)?;
    assert_limits(&rt, rt.alloc(), CALLS, &LIMITS)
}
