//! Boards of two linked domains end to end: texts of scenarios, and the reports of their runs.

use super::{Outcome, SERIAL, assert_outcomes};
use std::test::Fail;

/// A ring of two buffers: the third message finds none free until one came back.
const RING_OF_TWO: &[u8] = b"domain 0 nodes 1 pool 2
domain 1 nodes 1 pool 2
link 0 1 size 2
0.0 create 1
1.0 create 2
0.0 a = lookup 1:0:2
0.0 try 10 test a
0.0 msg_send 1 1:0:2 0 61
0.0 msg_send 1 1:0:2 0 62
0.0 msg_send 1 1:0:2 0 63
1.0 msg_recv 2 488
0.0 msg_send 1 1:0:2 0 63
1.0 msg_recv 2 0
";

const RING_OF_TWO_REPORT: &[u8] = b"mcapi-report 1 serial
domain 0 nodes 1 pool 2
domain 1 nodes 1 pool 2
link 0 1 size 2
0.0 create 1
1.0 create 2
0.0 a = lookup 1:0:2
0.0 try 10 test a
0.0 msg_send 1 1:0:2 0 61
0.0 msg_send 1 1:0:2 0 62
0.0 msg_send 1 1:0:2 0 63
1.0 msg_recv 2 488
0.0 msg_send 1 1:0:2 0 63
1.0 msg_recv 2 0
journal 0
idle 1
call 1 ok 1024
turn
put 1 000400003500000000000000280000006d636170693a303a303a310000000000000000000000000000000000000000000004000000000000
call 2 ok 0
spin 1 pending
turn
back 1 1
see 1 1
take 1 000400003500000000000000280000006d636170693a313a303a320000000000000000000000000000000000000000000004000000000000 acted
call 3 done 1024
idle 1
put 1 000400000004000000000000090000004d0101000000000061
call 4 ok
idle 1
put 1 000400000004000000000000090000004d0101000000000062
call 5 ok
idle 1
call 6 no_buffer
turn
back 1 1
put 1 000400000004000000000000090000004d0101000000000063
call 7 ok
journal 1
idle 1
call 1 ok 1024
turn
put 0 000400003500000000000000280000006d636170693a313a303a320000000000000000000000000000000000000000000004000000000000
see 0 1
take 0 000400003500000000000000280000006d636170693a303a303a310000000000000000000000000000000000000000000004000000000000 acted
turn
back 0 1
see 0 2
take 0 000400000004000000000000090000004d0101000000000061 queued
take 0 000400000004000000000000090000004d0101000000000062 queued
call 2 ok 1 61
turn
see 0 1
take 0 000400000004000000000000090000004d0101000000000063 queued
call 3 truncated 1 -
messages accepted 3 taken 2 dropped 0 queued 1 ring 0
lane 0 0 free 2 ring 0 queue 0 lent 0
lane 0 1 free 1 ring 0 queue 1 lent 0
lane 1 0 free 2 ring 0 queue 0 lent 0
lane 1 1 free 2 ring 0 queue 0 lent 0
end
";

/// A lookup before the create, and a delete that the peer sees.
const LOOKED_UP_BEFORE: &[u8] = b"domain 0 nodes 1 pool 2
domain 1 nodes 1 pool 2
link 0 1 size 4
0.0 create 1
0.0 a = lookup 1:0:9
0.0 test a
1.0 create 9
0.0 try 10 test a
1.0 delete 9
1.0 turn
0.0 msg_send 1 1:0:9 0 61
";

const LOOKED_UP_BEFORE_REPORT: &[u8] = b"mcapi-report 1 serial
domain 0 nodes 1 pool 2
domain 1 nodes 1 pool 2
link 0 1 size 4
0.0 create 1
0.0 a = lookup 1:0:9
0.0 test a
1.0 create 9
0.0 try 10 test a
1.0 delete 9
1.0 turn
0.0 msg_send 1 1:0:9 0 61
journal 0
idle 1
call 1 ok 1024
turn
put 1 000400003500000000000000280000006d636170693a303a303a310000000000000000000000000000000000000000000004000000000000
call 2 ok 0
idle 1
call 3 pending
turn
back 1 1
again pending
turn
see 1 1
take 1 000400003500000000000000280000006d636170693a313a303a390000000000000000000000000000000000000000000004000000000000 acted
call 4 done 1024
turn
see 1 1
take 1 000400003500000000000000280000006d636170693a313a303a390000000000000000000000000000000000000000000004000001000000 acted
call 5 peer_invalid
journal 1
turn
see 0 1
take 0 000400003500000000000000280000006d636170693a303a303a310000000000000000000000000000000000000000000004000000000000 acted
call 1 ok 1024
turn
put 0 000400003500000000000000280000006d636170693a313a303a390000000000000000000000000000000000000000000004000000000000
turn
back 0 1
call 2 ok 0
turn
put 0 000400003500000000000000280000006d636170693a313a303a390000000000000000000000000000000000000000000004000001000000
call 3 ok
messages accepted 0 taken 0 dropped 0 queued 0 ring 0
lane 0 0 free 2 ring 0 queue 0 lent 0
lane 0 1 free 4 ring 0 queue 0 lent 0
lane 1 0 free 4 ring 0 queue 0 lent 0
lane 1 1 free 2 ring 0 queue 0 lent 0
end
";

/// Between two calls of a line the other domain turns. Domains stand in falling order, and the link too.
const TRIES_OF_TWO: &[u8] = b"domain 1 nodes 1 pool 1
domain 0 nodes 1 pool 1
link 1 0 size 2
0.0 create 1
1.0 create 1
1.0 try 3 msg_recv 1 9
0.0 a = lookup 1:0:1
0.0 try 5 test a
0.0 msg_send 1 1:0:1 3 0A
0.0 msg_send 1 1:0:1 0 0b
1.0 try 2 msg_recv 1 9
1.0 msg_recv 1 9
";

const TRIES_OF_TWO_REPORT: &[u8] = b"mcapi-report 1 serial
domain 1 nodes 1 pool 1
domain 0 nodes 1 pool 1
link 1 0 size 2
0.0 create 1
1.0 create 1
1.0 try 3 msg_recv 1 9
0.0 a = lookup 1:0:1
0.0 try 5 test a
0.0 msg_send 1 1:0:1 3 0a
0.0 msg_send 1 1:0:1 0 0b
1.0 try 2 msg_recv 1 9
1.0 msg_recv 1 9
journal 0
idle 1
call 1 ok 1024
turn
put 1 000400003500000000000000280000006d636170693a303a303a310000000000000000000000000000000000000000000004000000000000
see 1 1
take 1 000400003500000000000000280000006d636170693a313a303a310000000000000000000000000000000000000000000004000000000000 acted
turn
back 1 1
idle 1
call 2 ok 0
idle 1
call 3 done 1024
idle 1
put 1 000400000004000000000000090000004d010103000000000a
call 4 ok
idle 1
put 1 000400000004000000000000090000004d010100000000000b
call 5 ok
journal 1
idle 1
call 1 ok 1024
turn
put 0 000400003500000000000000280000006d636170693a313a303a310000000000000000000000000000000000000000000004000000000000
again empty
turn
back 0 1
see 0 1
take 0 000400003500000000000000280000006d636170693a303a303a310000000000000000000000000000000000000000000004000000000000 acted
again empty
idle 1
call 2 empty
turn
see 0 2
take 0 000400000004000000000000090000004d010103000000000a queued
take 0 000400000004000000000000090000004d010100000000000b queued
call 3 ok 1 0b
idle 1
call 4 ok 1 0a
messages accepted 2 taken 2 dropped 0 queued 0 ring 0
lane 0 0 free 1 ring 0 queue 0 lent 0
lane 0 1 free 2 ring 0 queue 0 lent 0
lane 1 0 free 2 ring 0 queue 0 lent 0
lane 1 1 free 1 ring 0 queue 0 lent 0
end
";

/// Three announcements are owed over a link of two buffers, which they use up.
const THREE_OWED: &[u8] = b"domain 0 nodes 1 pool 2
domain 1 nodes 1 pool 2
link 0 1 size 2
0.0 create 1
0.0 create 2
0.0 create 3
0.0 turn
1.0 a = lookup 0:0:3
1.0 try 5 test a
1.0 create 7
1.0 msg_send 7 0:0:3 2 -
";

const THREE_OWED_REPORT: &[u8] = b"mcapi-report 1 serial
domain 0 nodes 1 pool 2
domain 1 nodes 1 pool 2
link 0 1 size 2
0.0 create 1
0.0 create 2
0.0 create 3
0.0 turn
1.0 a = lookup 0:0:3
1.0 try 5 test a
1.0 create 7
1.0 msg_send 7 0:0:3 2 -
journal 0
idle 1
call 1 ok 1024
turn
put 1 000400003500000000000000280000006d636170693a303a303a310000000000000000000000000000000000000000000004000000000000
call 2 ok 1025
turn
put 1 010400003500000000000000280000006d636170693a303a303a320000000000000000000000000000000000000000000104000000000000
call 3 ok 1026
idle 1
call 4 ok
turn
back 1 2
put 1 020400003500000000000000280000006d636170693a303a303a330000000000000000000000000000000000000000000204000000000000
journal 1
turn
see 0 2
take 0 000400003500000000000000280000006d636170693a303a303a310000000000000000000000000000000000000000000004000000000000 acted
take 0 010400003500000000000000280000006d636170693a303a303a320000000000000000000000000000000000000000000104000000000000 acted
call 1 ok 0
spin 1 pending
turn
see 0 1
take 0 020400003500000000000000280000006d636170693a303a303a330000000000000000000000000000000000000000000204000000000000 acted
call 2 done 1026
idle 1
call 3 ok 1024
turn
put 0 000400003500000000000000280000006d636170693a313a303a370000000000000000000000000000000000000000000004000000000000
put 0 000400000204000000000000080000004d01010200000000
call 4 ok
messages accepted 1 taken 0 dropped 0 queued 0 ring 1
lane 0 0 free 2 ring 0 queue 0 lent 0
lane 0 1 free 2 ring 0 queue 0 lent 0
lane 1 0 free 0 ring 2 queue 0 lent 0
lane 1 1 free 2 ring 0 queue 0 lent 0
end
";

/// No endpoint is made, so nothing is put to either lane of the link, and all its buffers stay free.
const QUIET: &[u8] = b"domain 0 nodes 1 pool 1
domain 1 nodes 1 pool 1
link 0 1 size 2
0.0 turn
1.0 turn
";

const QUIET_REPORT: &[u8] = b"mcapi-report 1 serial
domain 0 nodes 1 pool 1
domain 1 nodes 1 pool 1
link 0 1 size 2
0.0 turn
1.0 turn
journal 0
idle 1
call 1 ok
journal 1
idle 1
call 1 ok
messages accepted 0 taken 0 dropped 0 queued 0 ring 0
lane 0 0 free 1 ring 0 queue 0 lent 0
lane 0 1 free 2 ring 0 queue 0 lent 0
lane 1 0 free 2 ring 0 queue 0 lent 0
lane 1 1 free 1 ring 0 queue 0 lent 0
end
";

static BOARDS: [Outcome<'static>; 5] = [
    (SERIAL, RING_OF_TWO, 0, RING_OF_TWO_REPORT),
    (SERIAL, LOOKED_UP_BEFORE, 0, LOOKED_UP_BEFORE_REPORT),
    (SERIAL, TRIES_OF_TWO, 0, TRIES_OF_TWO_REPORT),
    (SERIAL, THREE_OWED, 0, THREE_OWED_REPORT),
    (SERIAL, QUIET, 0, QUIET_REPORT),
];

#[test]
fn boards_of_two_linked_domains(rt: HostRuntime) -> Result<(), Fail> {
    assert_outcomes(&rt, rt.alloc(), &BOARDS)
}
