//! A board of eight domains end to end.

use super::{Outcome, SERIAL, assert_outcomes};
use std::test::Fail;

/// Eight domains, each of which is linked to each other.
const EIGHT_LINKED: &[u8] = b"domain 0 nodes 1 pool 1
domain 1 nodes 1 pool 1
domain 2 nodes 1 pool 1
domain 3 nodes 1 pool 1
domain 4 nodes 1 pool 1
domain 5 nodes 1 pool 1
domain 6 nodes 1 pool 1
domain 7 nodes 1 pool 1
link 0 1 size 2
link 0 2 size 2
link 0 3 size 2
link 0 4 size 2
link 0 5 size 2
link 0 6 size 2
link 0 7 size 2
link 1 2 size 2
link 1 3 size 2
link 1 4 size 2
link 1 5 size 2
link 1 6 size 2
link 1 7 size 2
link 2 3 size 2
link 2 4 size 2
link 2 5 size 2
link 2 6 size 2
link 2 7 size 2
link 3 4 size 2
link 3 5 size 2
link 3 6 size 2
link 3 7 size 2
link 4 5 size 2
link 4 6 size 2
link 4 7 size 2
link 5 6 size 2
link 5 7 size 2
link 6 7 size 2
3.0 create 1
5.0 a = lookup 3:0:1
5.0 try 2 test a
5.0 create 2
5.0 msg_send 2 3:0:1 1 ff
3.0 msg_recv 1 1
";

const EIGHT_LINKED_REPORT: &[u8] = b"mcapi-report 1 serial
domain 0 nodes 1 pool 1
domain 1 nodes 1 pool 1
domain 2 nodes 1 pool 1
domain 3 nodes 1 pool 1
domain 4 nodes 1 pool 1
domain 5 nodes 1 pool 1
domain 6 nodes 1 pool 1
domain 7 nodes 1 pool 1
link 0 1 size 2
link 0 2 size 2
link 0 3 size 2
link 0 4 size 2
link 0 5 size 2
link 0 6 size 2
link 0 7 size 2
link 1 2 size 2
link 1 3 size 2
link 1 4 size 2
link 1 5 size 2
link 1 6 size 2
link 1 7 size 2
link 2 3 size 2
link 2 4 size 2
link 2 5 size 2
link 2 6 size 2
link 2 7 size 2
link 3 4 size 2
link 3 5 size 2
link 3 6 size 2
link 3 7 size 2
link 4 5 size 2
link 4 6 size 2
link 4 7 size 2
link 5 6 size 2
link 5 7 size 2
link 6 7 size 2
3.0 create 1
5.0 a = lookup 3:0:1
5.0 try 2 test a
5.0 create 2
5.0 msg_send 2 3:0:1 1 ff
3.0 msg_recv 1 1
journal 0
idle 1
journal 1
idle 1
journal 2
idle 1
journal 3
idle 1
call 1 ok 1024
turn
put 0 000400003500000000000000280000006d636170693a333a303a310000000000000000000000000000000000000000000004000000000000
put 1 000400003500000000000000280000006d636170693a333a303a310000000000000000000000000000000000000000000004000000000000
put 2 000400003500000000000000280000006d636170693a333a303a310000000000000000000000000000000000000000000004000000000000
put 4 000400003500000000000000280000006d636170693a333a303a310000000000000000000000000000000000000000000004000000000000
put 5 000400003500000000000000280000006d636170693a333a303a310000000000000000000000000000000000000000000004000000000000
put 6 000400003500000000000000280000006d636170693a333a303a310000000000000000000000000000000000000000000004000000000000
put 7 000400003500000000000000280000006d636170693a333a303a310000000000000000000000000000000000000000000004000000000000
turn
back 4 1
back 5 1
see 5 2
take 5 000400003500000000000000280000006d636170693a353a303a320000000000000000000000000000000000000000000004000000000000 acted
take 5 000400000004000000000000090000004d01010100000000ff queued
back 6 1
back 7 1
call 2 ok 1 ff
journal 4
turn
see 3 1
take 3 000400003500000000000000280000006d636170693a333a303a310000000000000000000000000000000000000000000004000000000000 acted
journal 5
idle 1
call 1 ok 0
spin 1 pending
turn
see 3 1
take 3 000400003500000000000000280000006d636170693a333a303a310000000000000000000000000000000000000000000004000000000000 acted
call 2 done 1024
idle 1
call 3 ok 1024
turn
put 0 000400003500000000000000280000006d636170693a353a303a320000000000000000000000000000000000000000000004000000000000
put 1 000400003500000000000000280000006d636170693a353a303a320000000000000000000000000000000000000000000004000000000000
put 2 000400003500000000000000280000006d636170693a353a303a320000000000000000000000000000000000000000000004000000000000
put 3 000400003500000000000000280000006d636170693a353a303a320000000000000000000000000000000000000000000004000000000000
put 4 000400003500000000000000280000006d636170693a353a303a320000000000000000000000000000000000000000000004000000000000
put 6 000400003500000000000000280000006d636170693a353a303a320000000000000000000000000000000000000000000004000000000000
put 7 000400003500000000000000280000006d636170693a353a303a320000000000000000000000000000000000000000000004000000000000
put 3 000400000004000000000000090000004d01010100000000ff
call 4 ok
journal 6
turn
see 3 1
take 3 000400003500000000000000280000006d636170693a333a303a310000000000000000000000000000000000000000000004000000000000 acted
journal 7
turn
see 3 1
take 3 000400003500000000000000280000006d636170693a333a303a310000000000000000000000000000000000000000000004000000000000 acted
messages accepted 1 taken 1 dropped 0 queued 0 ring 0
lane 0 0 free 1 ring 0 queue 0 lent 0
lane 0 1 free 2 ring 0 queue 0 lent 0
lane 0 2 free 2 ring 0 queue 0 lent 0
lane 0 3 free 2 ring 0 queue 0 lent 0
lane 0 4 free 2 ring 0 queue 0 lent 0
lane 0 5 free 2 ring 0 queue 0 lent 0
lane 0 6 free 2 ring 0 queue 0 lent 0
lane 0 7 free 2 ring 0 queue 0 lent 0
lane 1 0 free 2 ring 0 queue 0 lent 0
lane 1 1 free 1 ring 0 queue 0 lent 0
lane 1 2 free 2 ring 0 queue 0 lent 0
lane 1 3 free 2 ring 0 queue 0 lent 0
lane 1 4 free 2 ring 0 queue 0 lent 0
lane 1 5 free 2 ring 0 queue 0 lent 0
lane 1 6 free 2 ring 0 queue 0 lent 0
lane 1 7 free 2 ring 0 queue 0 lent 0
lane 2 0 free 2 ring 0 queue 0 lent 0
lane 2 1 free 2 ring 0 queue 0 lent 0
lane 2 2 free 1 ring 0 queue 0 lent 0
lane 2 3 free 2 ring 0 queue 0 lent 0
lane 2 4 free 2 ring 0 queue 0 lent 0
lane 2 5 free 2 ring 0 queue 0 lent 0
lane 2 6 free 2 ring 0 queue 0 lent 0
lane 2 7 free 2 ring 0 queue 0 lent 0
lane 3 0 free 1 ring 1 queue 0 lent 0
lane 3 1 free 1 ring 1 queue 0 lent 0
lane 3 2 free 1 ring 1 queue 0 lent 0
lane 3 3 free 1 ring 0 queue 0 lent 0
lane 3 4 free 2 ring 0 queue 0 lent 0
lane 3 5 free 2 ring 0 queue 0 lent 0
lane 3 6 free 2 ring 0 queue 0 lent 0
lane 3 7 free 2 ring 0 queue 0 lent 0
lane 4 0 free 2 ring 0 queue 0 lent 0
lane 4 1 free 2 ring 0 queue 0 lent 0
lane 4 2 free 2 ring 0 queue 0 lent 0
lane 4 3 free 2 ring 0 queue 0 lent 0
lane 4 4 free 1 ring 0 queue 0 lent 0
lane 4 5 free 2 ring 0 queue 0 lent 0
lane 4 6 free 2 ring 0 queue 0 lent 0
lane 4 7 free 2 ring 0 queue 0 lent 0
lane 5 0 free 1 ring 1 queue 0 lent 0
lane 5 1 free 1 ring 1 queue 0 lent 0
lane 5 2 free 1 ring 1 queue 0 lent 0
lane 5 3 free 2 ring 0 queue 0 lent 0
lane 5 4 free 1 ring 1 queue 0 lent 0
lane 5 5 free 1 ring 0 queue 0 lent 0
lane 5 6 free 1 ring 1 queue 0 lent 0
lane 5 7 free 1 ring 1 queue 0 lent 0
lane 6 0 free 2 ring 0 queue 0 lent 0
lane 6 1 free 2 ring 0 queue 0 lent 0
lane 6 2 free 2 ring 0 queue 0 lent 0
lane 6 3 free 2 ring 0 queue 0 lent 0
lane 6 4 free 2 ring 0 queue 0 lent 0
lane 6 5 free 2 ring 0 queue 0 lent 0
lane 6 6 free 1 ring 0 queue 0 lent 0
lane 6 7 free 2 ring 0 queue 0 lent 0
lane 7 0 free 2 ring 0 queue 0 lent 0
lane 7 1 free 2 ring 0 queue 0 lent 0
lane 7 2 free 2 ring 0 queue 0 lent 0
lane 7 3 free 2 ring 0 queue 0 lent 0
lane 7 4 free 2 ring 0 queue 0 lent 0
lane 7 5 free 2 ring 0 queue 0 lent 0
lane 7 6 free 2 ring 0 queue 0 lent 0
lane 7 7 free 1 ring 0 queue 0 lent 0
end
";

static BOARD: [Outcome<'static>; 1] = [(SERIAL, EIGHT_LINKED, 0, EIGHT_LINKED_REPORT)];

#[test]
fn eight_domains_all_linked(rt: HostRuntime) -> Result<(), Fail> {
    assert_outcomes(&rt, rt.alloc(), &BOARD)
}
