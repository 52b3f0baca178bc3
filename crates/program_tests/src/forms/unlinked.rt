//! Boards without a link end to end: texts of scenarios, and the reports of their runs.

use super::{Outcome, SERIAL, assert_outcomes};
use std::test::Fail;

/// Two messages wait at an endpoint that is deleted.
const DELETED_WITH_TWO: &[u8] = b"domain 0 nodes 1 pool 4
0.0 create 1
0.0 msg_send 1 0:0:1 0 61
0.0 msg_send 1 0:0:1 0 62
0.0 turn
0.0 delete 1
0.0 msg_recv 1 488
0.0 create 1
";

const DELETED_WITH_TWO_REPORT: &[u8] = b"mcapi-report 1 serial
domain 0 nodes 1 pool 4
0.0 create 1
0.0 msg_send 1 0:0:1 0 61
0.0 msg_send 1 0:0:1 0 62
0.0 turn
0.0 delete 1
0.0 msg_recv 1 488
0.0 create 1
journal 0
idle 1
call 1 ok 1024
idle 1
put 0 000400000004000000000000090000004d0101000000000061
call 2 ok
turn
see 0 1
take 0 000400000004000000000000090000004d0101000000000061 queued
put 0 000400000004000000000000090000004d0101000000000062
call 3 ok
turn
see 0 1
take 0 000400000004000000000000090000004d0101000000000062 queued
call 4 ok
idle 1
call 5 ok 2
turn
back 0 2
call 6 endp_invalid
idle 1
call 7 ok 1025
messages accepted 2 taken 0 dropped 2 queued 0 ring 0
lane 0 0 free 4 ring 0 queue 0 lent 0
end
";

/// A line with one call, and one with three.
const TRIES_ALONE: &[u8] = b"domain 0 nodes 1 pool 2
0.0 create 1
0.0 try 1 msg_recv 1 488
0.0 try 3 msg_recv 1 488
0.0 try 3 delete 2
0.0 turn
0.0 turn
";

const TRIES_ALONE_REPORT: &[u8] = b"mcapi-report 1 serial
domain 0 nodes 1 pool 2
0.0 create 1
0.0 try 1 msg_recv 1 488
0.0 try 3 msg_recv 1 488
0.0 try 3 delete 2
0.0 turn
0.0 turn
journal 0
idle 1
call 1 ok 1024
idle 1
call 2 empty
spin 2 empty
idle 1
call 3 empty
idle 1
call 4 endp_invalid
idle 1
call 5 ok
idle 1
call 6 ok
messages accepted 0 taken 0 dropped 0 queued 0 ring 0
lane 0 0 free 2 ring 0 queue 0 lent 0
end
";

/// Two lookups of a name of the domain itself are complete at one create.
const OWN_NAME_TWICE: &[u8] = b"domain 0 nodes 1 pool 1
0.0 a = lookup 0:0:5
0.0 b = lookup 0:0:5
0.0 test a
0.0 create 5
0.0 test a
0.0 test b
0.0 c = lookup 0:0:5
0.0 test c
";

const OWN_NAME_TWICE_REPORT: &[u8] = b"mcapi-report 1 serial
domain 0 nodes 1 pool 1
0.0 a = lookup 0:0:5
0.0 b = lookup 0:0:5
0.0 test a
0.0 create 5
0.0 test a
0.0 test b
0.0 c = lookup 0:0:5
0.0 test c
journal 0
idle 1
call 1 ok 0
idle 1
call 2 ok 1
idle 1
call 3 pending
idle 1
call 4 ok 1024
idle 1
call 5 done 1024
idle 1
call 6 done 1024
idle 1
call 7 ok 2
idle 1
call 8 done 1024
messages accepted 0 taken 0 dropped 0 queued 0 ring 0
lane 0 0 free 1 ring 0 queue 0 lent 0
end
";

/// A name of a domain that is not linked is never known.
const NO_LINK: &[u8] = b"domain 0 nodes 1 pool 1
domain 3 nodes 1 pool 1
0.0 create 1
3.0 create 1
0.0 a = lookup 3:0:1
0.0 try 2 test a
0.0 msg_send 1 3:0:1 0 -
0.0 cancel a
";

const NO_LINK_REPORT: &[u8] = b"mcapi-report 1 serial
domain 0 nodes 1 pool 1
domain 3 nodes 1 pool 1
0.0 create 1
3.0 create 1
0.0 a = lookup 3:0:1
0.0 try 2 test a
0.0 msg_send 1 3:0:1 0 -
0.0 cancel a
journal 0
idle 1
call 1 ok 1024
idle 1
call 2 ok 0
spin 1 pending
idle 1
call 3 pending
idle 1
call 4 peer_invalid
idle 1
call 5 ok
journal 3
idle 1
call 1 ok 1024
idle 1
messages accepted 0 taken 0 dropped 0 queued 0 ring 0
lane 0 0 free 1 ring 0 queue 0 lent 0
lane 3 3 free 1 ring 0 queue 0 lent 0
end
";

/// Remarks, blank lines and blanks, upper-case digits, and no newline at the end.
const WITH_REMARKS: &[u8] = b"# a board

 \t domain  0\tnodes 1 pool 1 
0.0 create 1\r
0.0 msg_send 1 0:0:1 0 aBcD
0.0 msg_recv 1 9";

const WITH_REMARKS_REPORT: &[u8] = b"mcapi-report 1 serial
domain 0 nodes 1 pool 1
0.0 create 1
0.0 msg_send 1 0:0:1 0 abcd
0.0 msg_recv 1 9
journal 0
idle 1
call 1 ok 1024
idle 1
put 0 0004000000040000000000000a0000004d01010000000000abcd
call 2 ok
turn
see 0 1
take 0 0004000000040000000000000a0000004d01010000000000abcd queued
call 3 ok 2 abcd
messages accepted 1 taken 1 dropped 0 queued 0 ring 0
lane 0 0 free 1 ring 0 queue 0 lent 0
end
";

static BOARDS: [Outcome<'static>; 5] = [
    (SERIAL, DELETED_WITH_TWO, 0, DELETED_WITH_TWO_REPORT),
    (SERIAL, TRIES_ALONE, 0, TRIES_ALONE_REPORT),
    (SERIAL, OWN_NAME_TWICE, 0, OWN_NAME_TWICE_REPORT),
    (SERIAL, NO_LINK, 0, NO_LINK_REPORT),
    (SERIAL, WITH_REMARKS, 0, WITH_REMARKS_REPORT),
];

#[test]
fn boards_without_a_link(rt: HostRuntime) -> Result<(), Fail> {
    assert_outcomes(&rt, rt.alloc(), &BOARDS)
}
