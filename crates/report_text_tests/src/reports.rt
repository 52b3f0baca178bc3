//! Reports of runs.

/// One domain sends itself a message.
pub static MESSAGE: &[u8] = b"mcapi-report 1 serial
domain 0 nodes 1 pool 2
0.0 create 1
0.0 create 2
0.0 msg_send 1 0:0:2 1 6869
0.0 msg_recv 2 488
journal 0
idle 1
call 1 ok 1024
idle 1
call 2 ok 1025
idle 1
put 0 0004000001040000000000000a0000004d010101000000006869
call 3 ok
turn
see 0 1
take 0 0004000001040000000000000a0000004d010101000000006869 queued
call 4 ok 2 6869
messages accepted 1 taken 1 dropped 0 queued 0 ring 0
lane 0 0 free 2 ring 0 queue 0 lent 0
end
";

/// Two domains connect a channel, with waits and tries.
pub static BOARD: &[u8] = b"mcapi-report 1 serial
domain 0 nodes 1 pool 2
domain 3 nodes 1 pool 2
link 0 3 size 2
3.0 create 2
3.0 turn
0.0 create 1
0.0 a = lookup 3:0:2
0.0 wait a 9
0.0 c = connect 1 3:0:2 packet
0.0 wait_any c 9
3.0 try 20 open_recv 2 packet
0.0 open_send 1 packet
0.0 try 9 pkt_send 1 6869
3.0 x = pkt_recv_i 2
3.0 try 3 test x
3.0 wait x 1
journal 0
turn
see 3 1
take 3 000400003500000000000000280000006d636170693a333a303a320000000000000000000000000000000000000000000004000000000000 acted
call 1 ok 1024
turn
put 3 000400003500000000000000280000006d636170693a303a303a310000000000000000000000000000000000000000000004000000000000
call 2 ok 0
call 3 done 1024
idle 1
put 3 000400000004000000000000080000004d01020001000000
call 4 ok 1 1
wait 5
idle 1
turn
back 3 2
turn
see 3 1
take 3 000400000004000000000000080000004d01030001000000 acted
call 5 done 1 accepted
turn
see 3 1
take 3 000400000004000000000000080000004d01050001000000 acted
put 3 000400000004000000000000080000004d01060001000000
call 6 ok
idle 1
put 3 0004000000040000000000000a0000004d010700010000006869
call 7 ok
journal 3
idle 1
call 1 ok 1024
turn
put 0 000400003500000000000000280000006d636170693a333a303a320000000000000000000000000000000000000000000004000000000000
call 2 ok
turn
back 0 1
see 0 2
take 0 000400003500000000000000280000006d636170693a303a303a310000000000000000000000000000000000000000000004000000000000 acted
take 0 000400000004000000000000080000004d01020001000000 owed
turn
put 0 000400000004000000000000080000004d01030001000000
turn
back 0 1
idle 1
put 0 000400000004000000000000080000004d01050001000000
call 3 ok
turn
back 0 1
see 0 2
take 0 000400000004000000000000080000004d01060001000000 acted
take 0 0004000000040000000000000a0000004d010700010000006869 queued
call 4 ok 0
idle 1
call 5 done 2 6869
call 6 request_invalid
channel 0 1 accepted 1 taken 1 dropped 0 queued 0 ring 0
messages accepted 0 taken 0 dropped 0 queued 0 ring 0
lane 0 0 free 2 ring 0 queue 0 lent 0
lane 0 3 free 1 ring 0 queue 0 lent 1
lane 3 0 free 2 ring 0 queue 0 lent 0
lane 3 3 free 2 ring 0 queue 0 lent 0
end
";

/// Raw frames are put to a peer, to a domain without a lane and to the domain itself.
pub static RAW: &[u8] = b"mcapi-report 1 serial
domain 0 nodes 1 pool 2
domain 3 nodes 1 pool 2
link 0 3 size 2
0.0 raw 3 00
0.0 raw 7 0004
0.0 raw 0 00ff
3.0 turn
journal 0
idle 1
put 3 00
call 1 ok
idle 1
call 2 link_invalid
idle 1
put 0 00ff
call 3 ok
journal 3
turn
see 0 1
take 0 00 frame_short
call 1 ok
messages accepted 0 taken 0 dropped 0 queued 0 ring 0
lane 0 0 free 1 ring 1 queue 0 lent 0
lane 0 3 free 2 ring 0 queue 0 lent 0
lane 3 0 free 2 ring 0 queue 0 lent 0
lane 3 3 free 2 ring 0 queue 0 lent 0
end
";

/// One domain with an empty script.
pub const NO_CALL: &[u8] = b"mcapi-report 1 serial
domain 5 nodes 1 pool 1
journal 5
messages accepted 0 taken 0 dropped 0 queued 0 ring 0
lane 5 5 free 1 ring 0 queue 0 lent 0
end
";

/// Three domains on threads, with two links and no calls.
pub static RINGS: &[u8] = b"mcapi-report 1 threads
domain 0 nodes 1 pool 2
domain 1 nodes 1 pool 2
domain 3 nodes 1 pool 2
link 3 0 size 2
link 1 3 size 2
journal 0
journal 1
journal 3
messages accepted 0 taken 0 dropped 0 queued 0 ring 0
lane 0 0 free 2 ring 0 queue 0 lent 0
lane 0 3 free 2 ring 0 queue 0 lent 0
lane 1 1 free 2 ring 0 queue 0 lent 0
lane 1 3 free 2 ring 0 queue 0 lent 0
lane 3 0 free 2 ring 0 queue 0 lent 0
lane 3 1 free 2 ring 0 queue 0 lent 0
lane 3 3 free 2 ring 0 queue 0 lent 0
ring 3 0 0 000000000000000000020000020000000002000000000000000200000200000000000200000001000000000000000000000000000000000000000000000000000000
ring 3 0 1 000400000000000000000000000000000006000000000000000000000000000000000000000000000000000000000000000000000000000000000000000000000000
ring 1 3 0 000000000000000000020000020000000002000000000000000200000200000000000200000001000000000000000000000000000000000000000000000000000000
ring 1 3 1 000400000000000000000000000000000006000000000000000000000000000000000000000000000000000000000000000000000000000000000000000000000000
end
";
