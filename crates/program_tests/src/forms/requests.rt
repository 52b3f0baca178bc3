//! Requests end to end: texts of scenarios, and what the report tells of their calls.

use super::{MESSAGE, comes_out, ends_with, lines_of, outcome_of, serial};
use std::alloc::{AllocError, Global};
use std::sync::Wait;
use std::test::Fail;
use std::thread::Threads;

/// A domain with two endpoints, of which the lines of a case follow.
const TWO_ENDPOINTS: &[u8] = b"domain 0 nodes 1 pool 4\n0.0 create 1\n0.0 create 2\n";

/// What comes first in its calls.
const TWO_CREATED: &[u8] = b"call 1 ok 1024\ncall 2 ok 1025\n";

/// Lines behind two endpoints, the lines of their calls, and how the report ends.
#[derive(Clone, Copy)]
struct Case<'a> {
    lines: &'a [u8],
    calls: &'a [u8],
    end: &'a [u8],
}

/// Messages of four priorities, and a receive for each of them and one more.
const BEST_FIRST: Case<'static> = Case {
    lines: b"0.0 msg_send 1 0:0:2 2 61
0.0 msg_send 1 0:0:2 0 62
0.0 msg_send 1 0:0:2 1 63
0.0 msg_send 1 0:0:2 0 64
0.0 msg_recv 2 488
0.0 msg_recv 2 488
0.0 msg_recv 2 488
0.0 msg_recv 2 488
0.0 msg_recv 2 488
",
    calls: b"call 3 ok
call 4 ok
call 5 ok
call 6 ok
call 7 ok 1 62
call 8 ok 1 64
call 9 ok 1 63
call 10 ok 1 61
call 11 empty
",
    end: b"messages accepted 4 taken 4 dropped 0 queued 0 ring 0\nlane 0 0 free 4 ring 0 queue 0 lent 0\nend\n",
};

/// A request that is cancelled takes nothing; one that is complete is tested off once.
const CANCELLED_AND_TESTED: Case<'static> = Case {
    lines: b"0.0 r = msg_recv_i 2 488
0.0 cancel r
0.0 msg_send 1 0:0:2 0 61
0.0 msg_recv 2 488
0.0 cancel r
0.0 s = msg_recv_i 2 488
0.0 msg_send 1 0:0:2 0 62
0.0 cancel s
0.0 test s
0.0 test s
",
    calls: b"call 3 ok 0
call 4 ok
call 5 ok
call 6 ok 1 61
call 7 request_invalid
call 8 ok 1
call 9 ok
call 10 too_late
call 11 done 1 62
call 12 request_invalid
",
    end: b"messages accepted 2 taken 2 dropped 0 queued 0 ring 0\nlane 0 0 free 4 ring 0 queue 0 lent 0\nend\n",
};

/// A request for no bytes is truncated, and whole where the message has none.
const NO_BYTES_ASKED: Case<'static> = Case {
    lines: b"0.0 r = msg_recv_i 2 0
0.0 s = msg_recv_i 2 0
0.0 msg_send 1 0:0:2 0 6161
0.0 msg_send 1 0:0:2 0 -
0.0 test r
0.0 test s
",
    calls: b"call 3 ok 0
call 4 ok 1
call 5 ok
call 6 ok
call 7 done truncated 2 -
call 8 done 0 -
",
    end: b"messages accepted 2 taken 2 dropped 0 queued 0 ring 0\nlane 0 0 free 4 ring 0 queue 0 lent 0\nend\n",
};

/// What comes for an endpoint goes to its waiting request, and not to a later receive.
const WAITS_BEFORE_A_RECEIVE: Case<'static> = Case {
    lines: b"0.0 r = msg_recv_i 2 488
0.0 msg_send 1 0:0:2 3 61
0.0 msg_recv 2 488
0.0 test r
",
    calls: b"call 3 ok 0\ncall 4 ok\ncall 5 empty\ncall 6 done 1 61\n",
    end: b"messages accepted 1 taken 1 dropped 0 queued 0 ring 0\nlane 0 0 free 4 ring 0 queue 0 lent 0\nend\n",
};

/// The oldest request is served first, whatever the priorities of what comes.
const OLDEST_IS_SERVED_FIRST: Case<'static> = Case {
    lines: b"0.0 r = msg_recv_i 2 488
0.0 s = msg_recv_i 2 488
0.0 test s
0.0 msg_send 1 0:0:2 3 61
0.0 msg_send 1 0:0:2 0 62
0.0 test s
0.0 test s
0.0 test r
",
    calls: b"call 3 ok 0
call 4 ok 1
call 5 pending
call 6 ok
call 7 ok
call 8 done 1 62
call 9 request_invalid
call 10 done 1 61
",
    end: b"messages accepted 2 taken 2 dropped 0 queued 0 ring 0\nlane 0 0 free 4 ring 0 queue 0 lent 0\nend\n",
};

/// A request takes the best of what is queued at once, and holds its buffer until it is tested off.
const LENT_UNTIL_TESTED: Case<'static> = Case {
    lines: b"0.0 msg_send 1 0:0:2 1 61
0.0 msg_send 1 0:0:2 0 62
0.0 msg_available 2
0.0 r = msg_recv_i 2 488
0.0 msg_available 2
0.0 msg_available 1
0.0 msg_available 3
",
    calls: b"call 3 ok
call 4 ok
call 5 ok 2
call 6 ok 0
call 7 ok 1
call 8 ok 0
call 9 endp_invalid
",
    end: b"messages accepted 2 taken 1 dropped 0 queued 1 ring 0\nlane 0 0 free 2 ring 0 queue 1 lent 1\nend\n",
};

const BACK_ONCE_TESTED: Case<'static> = Case {
    lines: b"0.0 msg_send 1 0:0:2 1 61
0.0 r = msg_recv_i 2 488
0.0 test r
0.0 msg_available 2
",
    calls: b"call 3 ok\ncall 4 ok 0\ncall 5 done 1 61\ncall 6 ok 0\n",
    end: b"messages accepted 1 taken 1 dropped 0 queued 0 ring 0\nlane 0 0 free 4 ring 0 queue 0 lent 0\nend\n",
};

/// A refused call gives no request, so its label names none, and no serial is used up.
const REFUSED_REQUEST: Case<'static> = Case {
    lines: b"0.0 r = msg_recv_i 3 488
0.0 test r
0.0 cancel r
0.0 s = msg_recv_i 2 488
0.0 test r
0.0 test s
",
    calls: b"call 3 endp_invalid
call 4 request_invalid
call 5 request_invalid
call 6 ok 0
call 7 request_invalid
call 8 pending
",
    end: b"messages accepted 0 taken 0 dropped 0 queued 0 ring 0\nlane 0 0 free 4 ring 0 queue 0 lent 0\nend\n",
};

/// The first of two requests is cancelled, so the second gets the message; a request at another endpoint does not.
const SECOND_GETS_IT: Case<'static> = Case {
    lines: b"0.0 other = msg_recv_i 1 488
0.0 first = msg_recv_i 2 488
0.0 second = msg_recv_i 2 488
0.0 cancel first
0.0 msg_send 1 0:0:2 0 61
0.0 test other
0.0 test second
0.0 test first
0.0 cancel second
",
    calls: b"call 3 ok 0
call 4 ok 1
call 5 ok 2
call 6 ok
call 7 ok
call 8 pending
call 9 done 1 61
call 10 request_invalid
call 11 request_invalid
",
    end: b"messages accepted 1 taken 1 dropped 0 queued 0 ring 0\nlane 0 0 free 4 ring 0 queue 0 lent 0\nend\n",
};

/// A place of a request is used again; the label of the one that ended names none.
const PLACE_USED_AGAIN: Case<'static> = Case {
    lines: b"0.0 r = msg_recv_i 2 488
0.0 cancel r
0.0 s = msg_recv_i 2 488
0.0 test r
0.0 cancel r
0.0 cancel s
0.0 cancel s
",
    calls: b"call 3 ok 0
call 4 ok
call 5 ok 1
call 6 request_invalid
call 7 request_invalid
call 8 ok
call 9 request_invalid
",
    end: b"messages accepted 0 taken 0 dropped 0 queued 0 ring 0\nlane 0 0 free 4 ring 0 queue 0 lent 0\nend\n",
};

pub(super) fn joined(alloc: Global, first: &[u8], rest: &[u8]) -> Result<Vec<u8>, AllocError> {
    let mut all = Vec::from_slice(alloc, first)?;
    all.extend_from_slice(rest)?;
    Ok(all)
}

/// Whether a text is run to its end, and its report tells just these calls and ends so.
pub(super) fn reports<T: Threads + Wait + Sync>(
    rt: &T,
    alloc: Global,
    text: &[u8],
    due: &[u8],
    end: &[u8],
) -> Result<bool, AllocError> {
    let (status, output) = outcome_of(rt, alloc, serial(text))?;
    let calls = lines_of(alloc, output.written(), &[b"call "])?;
    Ok(status == 0 && calls.as_slice() == due && output.written().ends_with(end))
}

/// Whether the report of a case tells what it must.
fn is_reported<T: Threads + Wait + Sync>(
    rt: &T,
    alloc: Global,
    case: Case<'_>,
) -> Result<bool, AllocError> {
    let text = joined(alloc, TWO_ENDPOINTS, case.lines)?;
    let due = joined(alloc, TWO_CREATED, case.calls)?;
    reports(rt, alloc, &text, &due, case.end)
}

static CASES: [Case<'static>; 10] = [
    BEST_FIRST,
    CANCELLED_AND_TESTED,
    NO_BYTES_ASKED,
    WAITS_BEFORE_A_RECEIVE,
    OLDEST_IS_SERVED_FIRST,
    LENT_UNTIL_TESTED,
    BACK_ONCE_TESTED,
    REFUSED_REQUEST,
    SECOND_GETS_IT,
    PLACE_USED_AGAIN,
];

#[test]
fn requests_end_to_end(rt: HostRuntime) -> Result<(), Fail> {
    for (i, case) in CASES.iter().enumerate() {
        assert!(rt; is_reported(&rt, rt.alloc(), *case)?, "row {i}");
    }
    Ok(())
}

/// Appends a byte in hexadecimal so many times.
fn extend_by_bytes(text: &mut Vec<u8>, count: usize) -> Result<(), AllocError> {
    for _ in 0..count {
        text.extend_from_slice(b"7a")?;
    }
    Ok(())
}

/// Sends a message of so many bytes.
fn extend_by_message(text: &mut Vec<u8>, size: usize) -> Result<(), AllocError> {
    text.extend_from_slice(b"0.0 msg_send 1 0:0:2 0 ")?;
    extend_by_bytes(text, size)?;
    text.push(b'\n')?;
    Ok(())
}

/// Sends messages of no byte, 488, 489 and 8,193, and receives one.
fn messages_of_sizes(alloc: Global) -> Result<Vec<u8>, AllocError> {
    let mut text = Vec::from_slice(
        alloc,
        b"domain 0 nodes 1 pool 2\n0.0 create 1\n0.0 create 2\n0.0 msg_send 1 0:0:2 0 -\n",
    )?;
    extend_by_message(&mut text, 488)?;
    extend_by_message(&mut text, 489)?;
    extend_by_message(&mut text, 8193)?;
    text.extend_from_slice(b"0.0 msg_recv 2 488\n")?;
    Ok(text)
}

const CALLS_OF_SIZES: &[u8] =
    b"call 1 ok 1024\ncall 2 ok 1025\ncall 3 ok\ncall 4 ok\ncall 5 no_buffer\ncall 6 msg_size\ncall 7 ok 0 -\n";

/// A message has at most 8,192 bytes, and may have none. One of 489 needs two buffers.
#[test]
fn sizes_of_messages(rt: HostRuntime) -> Result<(), Fail> {
    let text = messages_of_sizes(rt.alloc())?;
    assert!(rt; reports(&rt, rt.alloc(), &text, CALLS_OF_SIZES, b"end\n")?);
    Ok(())
}

fn extend_by_requests(text: &mut Vec<u8>) -> Result<(), AllocError> {
    for tens in b'0'..=b'7' {
        for ones in b'0'..=b'7' {
            text.extend_from_slice(b"0.0 r")?;
            text.extend_from_slice(&[tens, ones])?;
            text.extend_from_slice(b" = msg_recv_i 1 1\n")?;
        }
    }
    Ok(())
}

/// Makes 64 requests and tries more, one of them after one of the first has ended, and a connect.
fn many_requests(alloc: Global) -> Result<Vec<u8>, AllocError> {
    let mut text = Vec::from_slice(alloc, b"domain 0 nodes 1 pool 1\n0.0 create 1\n")?;
    extend_by_requests(&mut text)?;
    text.extend_from_slice(
        b"0.0 late = msg_recv_i 1 1\n0.0 test late\n0.0 cancel r36\n0.0 next = msg_recv_i 1 1\n0.0 over = msg_recv_i 1 1\n0.0 create 2\n0.0 full = connect 2 0:0:1 packet\n",
    )?;
    Ok(text)
}

const CALLS_AT_THE_LIMIT: &[u8] = b"call 65 ok 63
call 66 request_limit
call 67 request_invalid
call 68 ok
call 69 ok 64
call 70 request_limit
call 71 ok 1025
call 72 request_limit
";

/// Whether a text is run to its end, and its report tells these calls last.
fn ends_with_calls<T: Threads + Wait + Sync>(
    rt: &T,
    alloc: Global,
    text: &[u8],
    last: &[u8],
) -> Result<bool, AllocError> {
    let (status, output) = outcome_of(rt, alloc, serial(text))?;
    let calls = lines_of(alloc, output.written(), &[b"call "])?;
    Ok(status == 0 && calls.ends_with(last))
}

/// 64 requests stand and the next is refused, until one has ended.
#[test]
fn at_most_64_requests(rt: HostRuntime) -> Result<(), Fail> {
    let text = many_requests(rt.alloc())?;
    assert!(rt; ends_with_calls(&rt, rt.alloc(), &text, CALLS_AT_THE_LIMIT)?);
    Ok(())
}

/// Lines that are in no scenario, of labels and of a priority, each with the refusal.
static LINES_OF_NONE: [(&[u8], &[u8]); 14] = [
    (b"0.0 msg_recv_i 1 1\n", b"refused 6 form\n"),
    (
        b"0.0 r = msg_recv_i 1 1\n0.0 r = msg_recv_i 1 1\n",
        b"refused 7 label\n",
    ),
    (
        b"0.0 test r\n0.0 r = msg_recv_i 1 1\n",
        b"refused 6 label\n",
    ),
    (b"0.0 test r\n", b"refused 6 label\n"),
    (b"0.0 cancel r\n", b"refused 6 label\n"),
    (b"0.0 r = create 3\n", b"refused 6 label\n"),
    (b"0.0 r = msg_recv 1 1\n", b"refused 6 label\n"),
    (b"0.0 r= msg_recv_i 1 1\n", b"refused 6 form\n"),
    (b"0.0 R = msg_recv_i 1 1\n", b"refused 6 form\n"),
    (b"0.0 1r = msg_recv_i 1 1\n", b"refused 6 form\n"),
    (b"0.0 r-r = msg_recv_i 1 1\n", b"refused 6 form\n"),
    (
        b"0.0 abcdefghijklmnopq = msg_recv_i 1 1\n",
        b"refused 6 form\n",
    ),
    (b"0.0 r = msg_recv_i 1 9001\n", b"refused 6 number\n"),
    (b"0.0 msg_send 1 0:0:2 4 61\n", b"refused 6 number\n"),
];

const LONGEST_LABEL: &[u8] =
    b"0.0 abcdefghijklmn_9 = msg_recv_i 1 9000\n0.0 test abcdefghijklmn_9\n";

/// Whether lines after a scenario are refused so.
fn is_refused<T: Threads + Wait + Sync>(
    rt: &T,
    alloc: Global,
    lines: &[u8],
    refusal: &[u8],
) -> Result<bool, AllocError> {
    let text = joined(alloc, MESSAGE, lines)?;
    comes_out(rt, alloc, serial(&text), 3, refusal)
}

#[test]
fn lines_of_no_scenario(rt: HostRuntime) -> Result<(), Fail> {
    for (i, (lines, refusal)) in LINES_OF_NONE.iter().enumerate() {
        assert!(rt; is_refused(&rt, rt.alloc(), *lines, *refusal)?, "row {i}");
    }
    let text = joined(rt.alloc(), MESSAGE, LONGEST_LABEL)?;
    assert!(rt; ends_with(&rt, rt.alloc(), &text, b"end\n")?);
    Ok(())
}
