//! Reports of serial runs, and of runs that no serial run could be.

mod threads;

pub use threads::{OUT_OF_ORDER, OWN_OUT_OF_ORDER, RINGS, TAKEN_BEFORE_IT_IS_PUT};

/// One domain sends itself a message.
pub const MESSAGE: &[u8] = b"mcapi-report 1 serial
domain 0 nodes 1 pool 2
0.0 create 1
0.0 create 2
0.0 msg_send 1 0:0:2 1 6869
0.0 msg_recv 2 488
journal 0
idle 1
call 1 ok 1024
idle 1
call 2 ok 1025
idle 1
put 0 0004000001040000000000000a0000004d010101000000006869
call 3 ok
turn
see 0 1
take 0 0004000001040000000000000a0000004d010101000000006869 queued
call 4 ok 2 6869
messages accepted 1 taken 1 dropped 0 queued 0 ring 0
lane 0 0 free 2 ring 0 queue 0 lent 0
end
";

/// Two domains with waits and tries: for a name, for a message that does not come, for one of two receives, and for a free buffer.
pub const WAITS: &[u8] = b"mcapi-report 1 serial
domain 0 nodes 1 pool 2
domain 1 nodes 1 pool 2
link 0 1 size 2
0.0 create 1
0.0 far = lookup 1:0:7
0.0 wait far 1
0.0 try 4 msg_recv 1 488
1.0 create 7
0.0 wait far 10
1.0 first = msg_recv_i 7 488
1.0 second = msg_recv_i 7 2
0.0 msg_send 1 1:0:7 0 61
0.0 msg_send 1 1:0:7 3 626364
0.0 try 2 msg_send 1 1:0:7 1 65
1.0 wait_any second,first 9
1.0 cancel second
1.0 test second
1.0 wait second 0
1.0 delete 7
journal 0
idle 1
call 1 ok 1024
turn
put 1 000400003500000000000000280000006d636170693a303a303a310000000000000000000000000000000000000000000004000000000000
call 2 ok 0
wait 3
idle 1
call 3 timeout
turn
back 1 1
again empty
spin 2 empty
idle 1
call 4 empty
wait 5
idle 1
turn
see 1 1
take 1 000400003500000000000000280000006d636170693a313a303a370000000000000000000000000000000000000000000004000000000000 acted
call 5 done 1024
idle 1
put 1 000400000004000000000000090000004d0101000000000061
call 6 ok
idle 1
put 1 0004000000040000000000000b0000004d01010300000000626364
call 7 ok
spin 1 no_buffer
idle 1
call 8 no_buffer
journal 1
turn
see 0 1
take 0 000400003500000000000000280000006d636170693a303a303a310000000000000000000000000000000000000000000004000000000000 acted
idle 4
call 1 ok 1024
turn
put 0 000400003500000000000000280000006d636170693a313a303a370000000000000000000000000000000000000000000004000000000000
turn
back 0 1
idle 1
call 2 ok 0
idle 1
call 3 ok 1
turn
see 0 2
take 0 000400000004000000000000090000004d0101000000000061 handed
take 0 0004000000040000000000000b0000004d01010300000000626364 handed
call 4 done 1 truncated 3 6263
idle 1
call 5 request_invalid
idle 1
call 6 request_invalid
call 7 request_invalid
idle 1
call 8 ok 0
messages accepted 2 taken 2 dropped 0 queued 0 ring 0
lane 0 0 free 2 ring 0 queue 0 lent 0
lane 0 1 free 1 ring 0 queue 0 lent 1
lane 1 0 free 2 ring 0 queue 0 lent 0
lane 1 1 free 2 ring 0 queue 0 lent 0
end
";

/// Two domains put frames with a fault to each other and to themselves.
pub const RAW_FRAMES: &[u8] = b"mcapi-report 1 serial
domain 0 nodes 1 pool 2
domain 3 nodes 1 pool 1
link 0 3 size 2
0.0 raw 3 00
0.0 raw 3 000400000004000000000000080000000001010000000000
0.0 raw 3 00
0.0 raw 7 0004
0.0 raw 0 00ff
3.0 turn
0.0 turn
0.0 turn
journal 0
idle 1
put 3 00
call 1 ok
idle 1
put 3 000400000004000000000000080000000001010000000000
call 2 ok
idle 1
call 3 no_buffer
idle 1
call 4 link_invalid
idle 1
put 0 00ff
call 5 ok
turn
see 0 1
take 0 00ff frame_short
back 3 2
call 6 ok
turn
back 0 1
call 7 ok
journal 3
turn
see 0 2
take 0 00 frame_short
take 0 000400000004000000000000080000000001010000000000 magic
call 1 ok
messages accepted 0 taken 0 dropped 0 queued 0 ring 0
lane 0 0 free 2 ring 0 queue 0 lent 0
lane 0 3 free 2 ring 0 queue 0 lent 0
lane 3 0 free 2 ring 0 queue 0 lent 0
lane 3 3 free 1 ring 0 queue 0 lent 0
end
";

/// Two domains with a channel of packets, whose receiver closes it, and one of scalars, of which one is on its way at the end.
pub const CHANNELS: &[u8] = b"mcapi-report 1 serial
domain 0 nodes 1 pool 1
domain 1 nodes 1 pool 1
link 0 1 size 4
0.0 create 1
1.0 create 2
0.0 create 3
1.0 create 4
0.0 turn
1.0 turn
0.0 a = connect 1 1:0:2 packet
0.0 b = connect 3 1:0:4 scalar
1.0 open_recv 2 packet
1.0 open_recv 4 scalar
0.0 try 9 test a
0.0 wait b 9
0.0 open_send 1 packet
0.0 open_send 3 scalar
1.0 turn
0.0 pkt_send 1 6869
0.0 scl_send 3 16 4660
1.0 p = pkt_recv 2
1.0 scl_recv 4 32
1.0 scl_recv 4 16
0.0 pkt_send 1 61
0.0 pkt_send 1 62
1.0 close_recv 2
1.0 release p
0.0 close_send 1
0.0 scl_send 3 8 7
journal 0
idle 1
call 1 ok 1024
turn
put 1 000400003500000000000000280000006d636170693a303a303a310000000000000000000000000000000000000000000004000000000000
call 2 ok 1025
turn
back 1 1
put 1 010400003500000000000000280000006d636170693a303a303a330000000000000000000000000000000000000000000104000000000000
see 1 1
take 1 000400003500000000000000280000006d636170693a313a303a320000000000000000000000000000000000000000000004000000000000 acted
call 3 ok
turn
back 1 1
see 1 1
take 1 010400003500000000000000280000006d636170693a313a303a340000000000000000000000000000000000000000000104000000000000 acted
put 1 000400000004000000000000080000004d01020001000000
call 4 ok 0 1
idle 1
put 1 010400000104000000000000080000004d01020102000000
call 5 ok 1 2
turn
back 1 2
see 1 4
take 1 000400000004000000000000080000004d01050001000000 acted
take 1 000400000004000000000000080000004d01030001000000 acted
take 1 010400000104000000000000080000004d01030002000000 acted
take 1 010400000104000000000000080000004d01050002000000 acted
call 6 done accepted
call 7 done accepted
idle 1
put 1 000400000004000000000000080000004d01060001000000
call 8 ok
idle 1
put 1 010400000104000000000000080000004d01060002000000
call 9 ok
turn
back 1 2
put 1 0004000000040000000000000a0000004d010700010000006869
call 10 ok
idle 1
put 1 0104000001040000000000000a0000004d010802020000003412
call 11 ok
turn
back 1 1
put 1 000400000004000000000000090000004d0107000100000061
call 12 ok
idle 1
put 1 000400000004000000000000090000004d0107000100000062
call 13 ok
turn
back 1 3
see 1 1
take 1 000400000004000000000000080000004d010a0001000000 acted
put 1 000400000004000000000000080000004d01090001000000
call 14 ok
idle 1
put 1 010400000104000000000000090000004d0108010200000007
call 15 ok
journal 1
idle 1
call 1 ok 1024
turn
put 0 000400003500000000000000280000006d636170693a313a303a320000000000000000000000000000000000000000000004000000000000
see 0 1
take 0 000400003500000000000000280000006d636170693a303a303a310000000000000000000000000000000000000000000004000000000000 acted
call 2 ok 1025
turn
back 0 1
put 0 010400003500000000000000280000006d636170693a313a303a340000000000000000000000000000000000000000000104000000000000
see 0 1
take 0 010400003500000000000000280000006d636170693a303a303a330000000000000000000000000000000000000000000104000000000000 acted
call 3 ok
turn
back 0 1
see 0 2
take 0 000400000004000000000000080000004d01020001000000 owed
take 0 010400000104000000000000080000004d01020102000000 owed
put 0 000400000004000000000000080000004d01050001000000
call 4 ok
turn
put 0 000400000004000000000000080000004d01030001000000
put 0 010400000104000000000000080000004d01030002000000
put 0 010400000104000000000000080000004d01050002000000
call 5 ok
turn
back 0 4
see 0 2
take 0 000400000004000000000000080000004d01060001000000 acted
take 0 010400000104000000000000080000004d01060002000000 acted
call 6 ok
turn
see 0 2
take 0 0004000000040000000000000a0000004d010700010000006869 queued
take 0 0104000001040000000000000a0000004d010802020000003412 queued
call 7 ok 2 6869
idle 1
call 8 scl_size
idle 1
call 9 ok 4660
turn
see 0 2
take 0 000400000004000000000000090000004d0107000100000061 queued
take 0 000400000004000000000000090000004d0107000100000062 queued
put 0 000400000004000000000000080000004d010a0001000000
call 10 ok 2
idle 1
call 11 ok
channel 0 1 accepted 3 taken 1 dropped 2 queued 0 ring 0
channel 0 2 accepted 2 taken 1 dropped 0 queued 0 ring 1
messages accepted 0 taken 0 dropped 0 queued 0 ring 0
lane 0 0 free 1 ring 0 queue 0 lent 0
lane 0 1 free 2 ring 2 queue 0 lent 0
lane 1 0 free 4 ring 0 queue 0 lent 0
lane 1 1 free 1 ring 0 queue 0 lent 0
end
";

/// Eight domains with four links: one domain has three of them, two have none, and two have no call.
pub const EIGHT_DOMAINS: &[u8] = b"mcapi-report 1 serial
domain 0 nodes 1 pool 1
domain 1 nodes 1 pool 1
domain 2 nodes 2 pool 1
domain 3 nodes 1 pool 1
domain 4 nodes 1 pool 1
domain 5 nodes 1 pool 2
domain 6 nodes 1 pool 1
domain 7 nodes 1 pool 1
link 0 1 size 2
link 0 2 size 2
link 7 0 size 2
link 3 4 size 4
2.1 create 5
1.0 create 6
0.0 create 7
0.0 b = lookup 2:1:5
0.0 a = lookup 1:0:6
0.0 c = lookup 7:0:0
0.0 wait_any c,b,a 5
0.0 msg_send 7 2:1:5 2 6162
2.1 try 3 msg_recv 5 1
0.0 wait a 3
0.0 msg_send 7 1:0:6 0 -
1.0 try 3 msg_available 6
3.0 raw 4 4d
4.0 turn
5.0 create 1
5.0 msg_send 1 5:0:1 0 00
5.0 delete 1
journal 0
idle 1
call 1 ok 1024
turn
put 1 000400003500000000000000280000006d636170693a303a303a370000000000000000000000000000000000000000000004000000000000
put 2 000400003500000000000000280000006d636170693a303a303a370000000000000000000000000000000000000000000004000000000000
put 7 000400003500000000000000280000006d636170693a303a303a370000000000000000000000000000000000000000000004000000000000
call 2 ok 0
idle 1
call 3 ok 1
idle 1
call 4 ok 2
wait 5
idle 1
turn
back 1 1
see 1 1
take 1 000400003500000000000000280000006d636170693a313a303a360000000000000000000000000000000000000000000004000000000000 acted
back 2 1
see 2 1
take 2 000400003500000000000000280000006d636170693a323a313a350000000000000000000000000000000000000000000004000000000000 acted
back 7 1
call 5 done 2 1024
idle 1
put 2 0004000000040000000000000a0000004d010102000000006162
call 6 ok
call 7 done 1024
turn
back 2 1
put 1 000400000004000000000000080000004d01010000000000
call 8 ok
journal 1
idle 1
call 1 ok 1024
turn
put 0 000400003500000000000000280000006d636170693a313a303a360000000000000000000000000000000000000000000004000000000000
see 0 1
take 0 000400003500000000000000280000006d636170693a303a303a370000000000000000000000000000000000000000000004000000000000 acted
turn
back 0 1
turn
see 0 1
take 0 000400000004000000000000080000004d01010000000000 queued
call 2 ok 1
journal 2
idle 1
call 1 ok 1024
turn
put 0 000400003500000000000000280000006d636170693a323a313a350000000000000000000000000000000000000000000004000000000000
see 0 1
take 0 000400003500000000000000280000006d636170693a303a303a370000000000000000000000000000000000000000000004000000000000 acted
turn
back 0 1
turn
see 0 1
take 0 0004000000040000000000000a0000004d010102000000006162 queued
call 2 truncated 2 61
journal 3
idle 3
put 4 4d
call 1 ok
journal 4
idle 2
turn
see 3 1
take 3 4d frame_short
call 1 ok
journal 5
idle 3
call 1 ok 1024
idle 1
put 5 000400000004000000000000090000004d0101000000000000
call 2 ok
turn
see 5 1
take 5 000400000004000000000000090000004d0101000000000000 queued
call 3 ok 1
journal 6
idle 2
journal 7
turn
see 0 1
take 0 000400003500000000000000280000006d636170693a303a303a370000000000000000000000000000000000000000000004000000000000 acted
idle 1
messages accepted 3 taken 1 dropped 1 queued 1 ring 0
lane 0 0 free 1 ring 0 queue 0 lent 0
lane 0 1 free 1 ring 0 queue 1 lent 0
lane 0 2 free 2 ring 0 queue 0 lent 0
lane 0 7 free 2 ring 0 queue 0 lent 0
lane 1 0 free 2 ring 0 queue 0 lent 0
lane 1 1 free 1 ring 0 queue 0 lent 0
lane 2 0 free 2 ring 0 queue 0 lent 0
lane 2 2 free 1 ring 0 queue 0 lent 0
lane 3 3 free 1 ring 0 queue 0 lent 0
lane 3 4 free 4 ring 0 queue 0 lent 0
lane 4 3 free 4 ring 0 queue 0 lent 0
lane 4 4 free 1 ring 0 queue 0 lent 0
lane 5 5 free 2 ring 0 queue 0 lent 0
lane 6 6 free 1 ring 0 queue 0 lent 0
lane 7 0 free 2 ring 0 queue 0 lent 0
lane 7 7 free 1 ring 0 queue 0 lent 0
end
";

/// One domain with an empty script and an empty journal.
pub const NO_CALL: &[u8] = b"mcapi-report 1 serial
domain 5 nodes 1 pool 1
journal 5
messages accepted 0 taken 0 dropped 0 queued 0 ring 0
lane 5 5 free 1 ring 0 queue 0 lent 0
end
";

/// Each of two domains takes the other's frame before it puts its own.
pub const EACH_AFTER_THE_OTHER: &[u8] = b"mcapi-report 1 serial
domain 0 nodes 1 pool 1
domain 1 nodes 1 pool 1
link 0 1 size 2
0.0 raw 1 00
1.0 raw 0 01
journal 0
turn
see 1 1
take 1 01 frame_short
put 1 00
call 1 ok
journal 1
turn
see 0 1
take 0 00 frame_short
put 0 01
call 1 ok
messages accepted 0 taken 0 dropped 0 queued 0 ring 0
lane 0 0 free 1 ring 0 queue 0 lent 0
lane 0 1 free 2 ring 0 queue 0 lent 0
lane 1 0 free 2 ring 0 queue 0 lent 0
lane 1 1 free 1 ring 0 queue 0 lent 0
end
";
