//! Channels end to end: how they are connected, opened and closed, and what the report tells of them.

mod closes;
mod items;
mod refusals;
mod rejects;

use super::requests::{joined, reports};
use super::{Outcome, SERIAL, assert_outcomes};
use std::alloc::{AllocError, Global};
use std::process::Abort;
use std::sync::Wait;
use std::test::Fail;
use std::thread::Threads;

/// Two linked domains, each with an endpoint. The first looks up that of the second.
const LINKED: &[u8] = b"domain 0 nodes 1 pool 2
domain 1 nodes 1 pool 2
link 0 1 size 4
0.0 create 1
1.0 create 2
0.0 a = lookup 1:0:2
0.0 try 10 test a
";

/// A domain with two endpoints.
const ALONE: &[u8] = b"domain 0 nodes 1 pool 4\n0.0 create 1\n0.0 create 2\n";

/// A domain with three endpoints and one buffer.
const ONE_BUFFER: &[u8] = b"domain 0 nodes 1 pool 1
0.0 create 1
0.0 create 2
0.0 create 3
";

/// The lines behind those of a board, the calls of all lines, and how the report ends.
#[derive(Clone, Copy)]
struct Case<'a> {
    board: &'a [u8],
    lines: &'a [u8],
    calls: &'a [u8],
    end: &'a [u8],
}

/// A channel of packets is connected and opened.
const OPENED_PACKETS: &[u8] = b"domain 0 nodes 1 pool 2
domain 1 nodes 1 pool 2
link 0 1 size 4
0.0 create 1
1.0 create 2
0.0 a = lookup 1:0:2
0.0 try 10 test a
0.0 c = connect 1 1:0:2 packet
0.0 try 10 test c
1.0 open_recv 2 packet
0.0 open_send 1 packet
";

const OPENED_PACKETS_REPORT: &[u8] = b"mcapi-report 1 serial
domain 0 nodes 1 pool 2
domain 1 nodes 1 pool 2
link 0 1 size 4
0.0 create 1
1.0 create 2
0.0 a = lookup 1:0:2
0.0 try 10 test a
0.0 c = connect 1 1:0:2 packet
0.0 try 10 test c
1.0 open_recv 2 packet
0.0 open_send 1 packet
journal 0
idle 1
call 1 ok 1024
turn
put 1 000400003500000000000000280000006d636170693a303a303a310000000000000000000000000000000000000000000004000000000000
call 2 ok 0
spin 1 pending
turn
back 1 1
see 1 1
take 1 000400003500000000000000280000006d636170693a313a303a320000000000000000000000000000000000000000000004000000000000 acted
call 3 done 1024
idle 1
put 1 000400000004000000000000080000004d01020001000000
call 4 ok 1 1
spin 1 pending
turn
back 1 1
again pending
turn
see 1 1
take 1 000400000004000000000000080000004d01030001000000 acted
call 5 done accepted
turn
see 1 1
take 1 000400000004000000000000080000004d01050001000000 acted
put 1 000400000004000000000000080000004d01060001000000
call 6 ok
journal 1
idle 1
call 1 ok 1024
turn
put 0 000400003500000000000000280000006d636170693a313a303a320000000000000000000000000000000000000000000004000000000000
see 0 1
take 0 000400003500000000000000280000006d636170693a303a303a310000000000000000000000000000000000000000000004000000000000 acted
turn
back 0 1
see 0 1
take 0 000400000004000000000000080000004d01020001000000 owed
turn
put 0 000400000004000000000000080000004d01030001000000
turn
back 0 1
put 0 000400000004000000000000080000004d01050001000000
call 2 ok
channel 0 1 accepted 0 taken 0 dropped 0 queued 0 ring 0
messages accepted 0 taken 0 dropped 0 queued 0 ring 0
lane 0 0 free 2 ring 0 queue 0 lent 0
lane 0 1 free 3 ring 1 queue 0 lent 0
lane 1 0 free 4 ring 0 queue 0 lent 0
lane 1 1 free 2 ring 0 queue 0 lent 0
end
";

/// A channel of scalars is connected and opened.
const OPENED_SCALARS: &[u8] = b"domain 0 nodes 1 pool 2
domain 1 nodes 1 pool 2
link 0 1 size 4
0.0 create 1
1.0 create 2
0.0 a = lookup 1:0:2
0.0 try 10 test a
0.0 c = connect 1 1:0:2 scalar
0.0 try 10 test c
1.0 open_recv 2 scalar
0.0 open_send 1 scalar
";

const OPENED_SCALARS_REPORT: &[u8] = b"mcapi-report 1 serial
domain 0 nodes 1 pool 2
domain 1 nodes 1 pool 2
link 0 1 size 4
0.0 create 1
1.0 create 2
0.0 a = lookup 1:0:2
0.0 try 10 test a
0.0 c = connect 1 1:0:2 scalar
0.0 try 10 test c
1.0 open_recv 2 scalar
0.0 open_send 1 scalar
journal 0
idle 1
call 1 ok 1024
turn
put 1 000400003500000000000000280000006d636170693a303a303a310000000000000000000000000000000000000000000004000000000000
call 2 ok 0
spin 1 pending
turn
back 1 1
see 1 1
take 1 000400003500000000000000280000006d636170693a313a303a320000000000000000000000000000000000000000000004000000000000 acted
call 3 done 1024
idle 1
put 1 000400000004000000000000080000004d01020101000000
call 4 ok 1 1
spin 1 pending
turn
back 1 1
again pending
turn
see 1 1
take 1 000400000004000000000000080000004d01030001000000 acted
call 5 done accepted
turn
see 1 1
take 1 000400000004000000000000080000004d01050001000000 acted
put 1 000400000004000000000000080000004d01060001000000
call 6 ok
journal 1
idle 1
call 1 ok 1024
turn
put 0 000400003500000000000000280000006d636170693a313a303a320000000000000000000000000000000000000000000004000000000000
see 0 1
take 0 000400003500000000000000280000006d636170693a303a303a310000000000000000000000000000000000000000000004000000000000 acted
turn
back 0 1
see 0 1
take 0 000400000004000000000000080000004d01020101000000 owed
turn
put 0 000400000004000000000000080000004d01030001000000
turn
back 0 1
put 0 000400000004000000000000080000004d01050001000000
call 2 ok
channel 0 1 accepted 0 taken 0 dropped 0 queued 0 ring 0
messages accepted 0 taken 0 dropped 0 queued 0 ring 0
lane 0 0 free 2 ring 0 queue 0 lent 0
lane 0 1 free 3 ring 1 queue 0 lent 0
lane 1 0 free 4 ring 0 queue 0 lent 0
lane 1 1 free 2 ring 0 queue 0 lent 0
end
";

static OPENED: [Outcome<'static>; 2] = [
    (SERIAL, OPENED_PACKETS, 0, OPENED_PACKETS_REPORT),
    (SERIAL, OPENED_SCALARS, 0, OPENED_SCALARS_REPORT),
];

#[test]
fn channels_are_opened(rt: HostRuntime) -> Result<(), Fail> {
    assert_outcomes(&rt, rt.alloc(), &OPENED)
}

/// Whether the report of a case tells what it must.
fn is_reported<T: Threads + Wait + Sync>(
    rt: &T,
    alloc: Global,
    case: Case<'_>,
) -> Result<bool, AllocError> {
    let text = joined(alloc, case.board, case.lines)?;
    reports(rt, alloc, &text, case.calls, case.end)
}

fn assert_reported<T: Threads + Wait + Sync + Abort>(
    rt: &T,
    alloc: Global,
    cases: &[Case<'_>],
) -> Result<(), Fail> {
    for (i, case) in cases.iter().enumerate() {
        assert!(rt; is_reported(rt, alloc, *case)?, "row {i}");
    }
    Ok(())
}
