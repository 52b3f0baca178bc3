//! Reports and scenario files, and what the program `mcview` shows of them.

/// A domain of one buffer: what no call may do is told by its answer.
pub const ONE_BUFFER: &str = "mcapi-report 1 serial
domain 3 nodes 2 pool 1
3.0 create 1
3.1 create 7
3.0 create 1
3.0 msg_send 1 3:1:7 1 666972737420
3.0 msg_send 1 3:1:7 1 7365636f6e64
3.1 msg_recv 7 3
journal 3
idle 1
call 1 ok 1024
idle 1
call 2 ok 1025
idle 1
call 3 exists_already
idle 1
put 3 0004000001040000000000000e0000004d01010100000000666972737420
call 4 ok
turn
see 3 1
take 3 0004000001040000000000000e0000004d01010100000000666972737420 queued
call 5 no_buffer
idle 1
call 6 truncated 6 666972
messages accepted 1 taken 1 dropped 0 queued 0 ring 0
lane 3 3 free 1 ring 0 queue 0 lent 0
end
";

pub const ONE_BUFFER_REFUSED: &str = "5 3 3 3.0 create 1: exists_already
7 3 5 3.0 msg_send 1 3:1:7 1 7365636f6e64: no_buffer
";

pub const ONE_BUFFER_TEXT: &str = "domain 3
3: 3.0 create 1
    idle turns: 1
    answer ok 1024
4: 3.1 create 7
    idle turns: 1
    answer ok 1025
5: 3.0 create 1
    idle turns: 1
    answer exists_already
6: 3.0 msg_send 1 3:1:7 1 666972737420
    idle turns: 1
    put to 3: 1024 to 1025: message of priority 1, \"first \"
    answer ok
7: 3.0 msg_send 1 3:1:7 1 7365636f6e64
    turn
    frames there from 3: 1
    take from 3: 1024 to 1025: message of priority 1, \"first \": queued
    answer no_buffer
8: 3.1 msg_recv 7 3
    idle turns: 1
    answer truncated 6 \"fir\"
";

pub const ONE_BUFFER_LINE: &str = "domain 3
5: 3.0 create 1
    idle turns: 1
    answer exists_already
";

/// Two linked domains, of which one waits in vain for an endpoint of the other.
pub const WAIT: &str = "mcapi-report 1 serial
domain 0 nodes 1 pool 2
domain 1 nodes 1 pool 2
link 0 1 size 4
0.0 far = lookup 1:0:7
0.0 wait far 3
1.0 create 1
journal 0
idle 1
call 1 ok 0
wait 2
idle 3
call 2 timeout
journal 1
idle 1
call 1 ok 1024
messages accepted 0 taken 0 dropped 0 queued 0 ring 0
lane 0 0 free 2 ring 0 queue 0 lent 0
lane 0 1 free 4 ring 0 queue 0 lent 0
lane 1 0 free 4 ring 0 queue 0 lent 0
lane 1 1 free 2 ring 0 queue 0 lent 0
end
";

pub const WAIT_TEXT: &str = "domain 0
6: 0.0 wait far 3
    wait
    idle turns: 3
    answer timeout
        turns of the wait: 3
        waited for line 5: 0.0 far = lookup 1:0:7
        frames from 0: 0 taken, 0 on the way
        frames from 1: 0 taken, 0 on the way
        calls that domain 1 had made: 0 of 1
domain 1
";

/// Two linked domains on threads: one waits in vain for a message at one endpoint, while another has two messages and a third is on its way.
pub const QUEUED: &str = "mcapi-report 1 threads
domain 0 nodes 1 pool 2
domain 1 nodes 1 pool 2
link 0 1 size 4
0.0 create 1
0.0 create 2
0.0 m = msg_recv_i 2 8
0.0 wait m 2
1.0 create 1
1.0 far = lookup 0:0:1
1.0 wait far 5
1.0 msg_send 1 0:0:1 0 61
1.0 msg_send 1 0:0:1 0 62
1.0 msg_send 1 0:0:1 0 63
journal 0
idle 1
call 1 ok 1024
turn
put 1 000400003500000000000000280000006d636170693a303a303a310000000000000000000000000000000000000000000004000000000000
call 2 ok 1025
turn
put 1 010400003500000000000000280000006d636170693a303a303a320000000000000000000000000000000000000000000104000000000000
call 3 ok 0
wait 4
idle 1
turn
see 1 3
take 1 000400003500000000000000280000006d636170693a313a303a310000000000000000000000000000000000000000000004000000000000 acted
take 1 000400000004000000000000090000004d0101000000000061 queued
take 1 000400000004000000000000090000004d0101000000000062 queued
call 4 timeout
journal 1
idle 1
call 1 ok 1024
turn
put 0 000400003500000000000000280000006d636170693a313a303a310000000000000000000000000000000000000000000004000000000000
call 2 ok 0
wait 3
turn
see 0 2
take 0 000400003500000000000000280000006d636170693a303a303a310000000000000000000000000000000000000000000004000000000000 acted
take 0 010400003500000000000000280000006d636170693a303a303a320000000000000000000000000000000000000000000104000000000000 acted
call 3 done 1024
idle 1
put 0 000400000004000000000000090000004d0101000000000061
call 4 ok
idle 1
put 0 000400000004000000000000090000004d0101000000000062
call 5 ok
idle 1
put 0 000400000004000000000000090000004d0101000000000063
call 6 ok
messages accepted 3 taken 0 dropped 0 queued 2 ring 1
lane 0 0 free 2 ring 0 queue 0 lent 0
lane 0 1 free 4 ring 0 queue 0 lent 0
lane 1 0 free 1 ring 1 queue 2 lent 0
lane 1 1 free 2 ring 0 queue 0 lent 0
ring 0 1 0 -
ring 0 1 1 -
end
";

pub const QUEUED_WAIT: &str = "domain 0, 8: 0.0 wait m 2
    wait
    idle turns: 1
    turn
    frames there from 1: 3
    take from 1: announce mcapi:1:0:1 at 1024: acted
    take from 1: 1024 to 1024: message of priority 0, \"a\": queued
    take from 1: 1024 to 1024: message of priority 0, \"b\": queued
    answer timeout
        turns of the wait: 2
        waited for line 7: 0.0 m = msg_recv_i 2 8
        frames from 0: 0 taken, 0 on the way
        frames from 1: 3 taken, 0 on the way
        calls that domain 1 had made: 5 of 6
        queued at port 1 of node 0: 2
";

/// The same, where the waiting domain saw nothing.
pub const UNSEEN_WAIT: &str = "domain 0, 8: 0.0 wait m 2
    wait
    idle turns: 2
    answer timeout
        turns of the wait: 2
        waited for line 7: 0.0 m = msg_recv_i 2 8
        frames from 0: 0 taken, 0 on the way
        frames from 1: 0 taken, 1 on the way
        calls that domain 1 had made: 2 of 6
";

/// A frame that is taken and that no domain puts.
pub const TAKEN: &str = "mcapi-report 1 serial
domain 0 nodes 1 pool 2
0.0 create 1
journal 0
turn
see 0 1
take 0 - acted
call 1 ok 1024
messages accepted 0 taken 0 dropped 0 queued 0 ring 0
lane 0 0 free 2 ring 0 queue 0 lent 0
end
";

pub const TAKEN_TEXT: &str = "domain 0
3: 0.0 create 1
    turn
    frames there from 0: 1
    take from 0: faulty frame of 0 bytes: acted
    answer ok 1024
";

/// Two domains, of which one goes on while the other waits.
pub const TOGETHER: &str = "domain 0, 5: 0.0 far = lookup 1:0:7
    idle turns: 1
    answer ok 0
domain 0, 6: 0.0 wait far 3
    wait
    idle turns: 3
    answer timeout
        turns of the wait: 3
        waited for line 5: 0.0 far = lookup 1:0:7
        frames from 0: 0 taken, 0 on the way
        frames from 1: 0 taken, 0 on the way
        calls that domain 1 had made: 0 of 1
domain 1, 7: 1.0 create 1
    idle turns: 1
    answer ok 1024
";

pub const USAGE: &str =
    "usage: mcview refused | text [--domain D] [--channel D N] [--line K] [--refused] [--together] | expect FILE | sequence [--from K] [--to K] | lanes | trace, each [--check]\n";

/// Answers that are expected of the domain of one buffer, one of which it does not give.
pub const EXPECTED: &str = "# A comment -> expects nothing.
domain 3 nodes 2 pool 1
3.0 create 1 -> ok 1024

3.1 create 7
3.0 create 1 -> ok 1026
3.0 msg_send 1 3:1:7 1 666972737420
3.0 msg_send 1 3:1:7 1 7365636f6e64  ->  no_buffer\t
 3.1 msg_recv 7 3->truncated 6 666972";

pub const COMPARED: &str = "1..4
ok - line 3: 3.0 create 1
not ok - line 6: 3.0 create 1
  ---
  expected: ok 1026
  answer: exists_already
  ...
ok - line 8: 3.0 msg_send 1 3:1:7 1 7365636f6e64
ok - line 9: 3.1 msg_recv 7 3
";

/// All answers are as expected: there is one that is.
pub const ONE_EXPECTED: &str = "domain 0 nodes 1 pool 2\r
domain 1 nodes 1 pool 2\r
link 0 1 size 4\r
0.0 far = lookup 1:0:7\r
0.0 wait far 3 -> timeout\r
1.0 create 1\r
";

/// The line of another scenario, and one of none.
pub const OTHER_SCENARIO: &str = "domain 3 nodes 2 pool 1
3.0 create 1
3.1 create 8
";

pub const NO_SCENARIO: &str = "domain 3 nodes 2 pool 1 -> ok
";
