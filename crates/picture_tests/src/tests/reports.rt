//! Reports of which pictures are drawn.

use std::alloc::{AllocError, Global};

/// How many lines of a text begin with a word.
pub fn lines_of(text: &str, word: &str) -> usize {
    let mut count: usize = 0;
    for line in text.lines() {
        if line.starts_with(word) {
            count = count.saturating_add(1);
        }
    }
    count
}

/// The report of so many domains without links, each of which creates an endpoint.
pub fn bare_report(alloc: Global, domains: u8) -> Result<String, AllocError> {
    let mut report = String::from_str(alloc, "mcapi-report 1 serial\n")?;
    for domain in 0..domains {
        let line = format!(in alloc; "domain {domain} nodes 1 pool 2\n")?;
        report.push_str(&line)?;
    }
    for domain in 0..domains {
        let line = format!(in alloc; "{domain}.0 create 1\n")?;
        report.push_str(&line)?;
    }
    for domain in 0..domains {
        let lines = format!(in alloc; "journal {domain}\nidle 1\ncall 1 ok 1024\n")?;
        report.push_str(&lines)?;
    }
    report.push_str("messages accepted 0 taken 0 dropped 0 queued 0 ring 0\n")?;
    for domain in 0..domains {
        let line = format!(in alloc; "lane {domain} {domain} free 2 ring 0 queue 0 lent 0\n")?;
        report.push_str(&line)?;
    }
    report.push_str("end\n")?;
    Ok(report)
}

/// Three domains in a chain: a channel of packets, waits, calls that are made again, raw frames, and a wait that reaches its limit. From a serial run.
pub const CHANNEL: &str = "mcapi-report 1 serial
domain 0 nodes 1 pool 2
domain 1 nodes 1 pool 2
domain 2 nodes 1 pool 1
link 0 1 size 4
link 1 2 size 2
0.0 create 1
1.0 create 2
0.0 far = lookup 1:0:2
0.0 wait far 9
0.0 c = connect 1 1:0:2 packet
1.0 try 3 open_recv 2 packet
0.0 wait c 9
0.0 open_send 1 packet
0.0 try 3 pkt_send 1 6869
1.0 p = try 3 pkt_recv 2
1.0 raw 2 00
1.0 raw 2 00
1.0 raw 2 00
2.0 turn
1.0 raw 2 4d
0.0 pkt_send 1 6869
1.0 try 3 msg_available 5
1.0 m = msg_recv_i 2 8
2.0 none = lookup 1:0:9
2.0 wait none 2
journal 0
idle 1
call 1 ok 1024
turn
put 1 000400003500000000000000280000006d636170693a303a303a310000000000000000000000000000000000000000000004000000000000
call 2 ok 0
wait 3
idle 1
turn
back 1 1
see 1 1
take 1 000400003500000000000000280000006d636170693a313a303a320000000000000000000000000000000000000000000004000000000000 acted
call 3 done 1024
idle 1
put 1 000400000004000000000000080000004d01020001000000
call 4 ok 1 1
wait 5
turn
back 1 1
see 1 1
take 1 000400000004000000000000080000004d01050001000000 acted
turn
see 1 1
take 1 000400000004000000000000080000004d01030001000000 acted
call 5 done accepted
idle 1
put 1 000400000004000000000000080000004d01060001000000
call 6 ok
idle 1
put 1 0004000000040000000000000a0000004d010700010000006869
call 7 ok
turn
back 1 1
put 1 0004000000040000000000000a0000004d010700010000006869
call 8 ok
idle 2
journal 1
idle 1
call 1 ok 1024
turn
put 0 000400003500000000000000280000006d636170693a313a303a320000000000000000000000000000000000000000000004000000000000
see 0 1
take 0 000400003500000000000000280000006d636170693a303a303a310000000000000000000000000000000000000000000004000000000000 acted
put 2 000400003500000000000000280000006d636170693a313a303a320000000000000000000000000000000000000000000004000000000000
turn
back 0 1
back 2 1
turn
see 0 1
take 0 000400000004000000000000080000004d01020001000000 owed
put 0 000400000004000000000000080000004d01050001000000
call 2 ok
turn
back 0 1
put 0 000400000004000000000000080000004d01030001000000
turn
back 0 1
turn
see 0 2
take 0 000400000004000000000000080000004d01060001000000 acted
take 0 0004000000040000000000000a0000004d010700010000006869 queued
call 3 ok 2 6869
idle 1
put 2 00
call 4 ok
idle 1
put 2 00
call 5 ok
idle 1
call 6 no_buffer
turn
back 2 2
put 2 4d
call 7 ok
turn
see 0 1
take 0 0004000000040000000000000a0000004d010700010000006869 queued
call 8 endp_invalid
idle 1
call 9 on_channel
turn
back 2 1
idle 1
journal 2
turn
see 1 1
take 1 000400003500000000000000280000006d636170693a313a303a320000000000000000000000000000000000000000000004000000000000 acted
idle 3
turn
see 1 2
take 1 00 frame_short
take 1 00 frame_short
call 1 ok
turn
see 1 1
take 1 4d frame_short
call 2 ok 0
wait 3
idle 2
call 3 timeout
channel 0 1 accepted 2 taken 1 dropped 0 queued 1 ring 0
messages accepted 0 taken 0 dropped 0 queued 0 ring 0
lane 0 0 free 2 ring 0 queue 0 lent 0
lane 0 1 free 2 ring 0 queue 1 lent 1
lane 1 0 free 4 ring 0 queue 0 lent 0
lane 1 1 free 2 ring 0 queue 0 lent 0
lane 1 2 free 2 ring 0 queue 0 lent 0
lane 2 1 free 2 ring 0 queue 0 lent 0
lane 2 2 free 1 ring 0 queue 0 lent 0
end
";

/// Two domains whose calls are made again. From a run on threads.
pub const TRIES: &str = "mcapi-report 1 threads
domain 0 nodes 1 pool 2
domain 1 nodes 1 pool 2
link 0 1 size 2
1.0 create 7
0.0 far = lookup 1:0:7
0.0 try 4294967295 test far
0.0 create 1
0.0 create 2
0.0 try 4294967295 msg_send 1 1:0:7 0 61
1.0 try 4294967295 msg_recv 7 488
1.0 try 4 msg_recv 7 488
0.0 try 4 create 1
journal 0
turn
see 1 1
take 1 000400003500000000000000280000006d636170693a313a303a370000000000000000000000000000000000000000000004000000000000 acted
call 1 ok 0
idle 1
call 2 done 1024
idle 1
call 3 ok 1024
turn
put 1 000400003500000000000000280000006d636170693a303a303a310000000000000000000000000000000000000000000004000000000000
call 4 ok 1025
turn
put 1 010400003500000000000000280000006d636170693a303a303a320000000000000000000000000000000000000000000104000000000000
again no_buffer
spin 2433 no_buffer
turn
back 1 2
put 1 000400000004000000000000090000004d0101000000000061
call 5 ok
idle 1
call 6 exists_already
journal 1
idle 1
call 1 ok 1024
turn
put 0 000400003500000000000000280000006d636170693a313a303a370000000000000000000000000000000000000000000004000000000000
again empty
spin 1601 empty
turn
back 0 1
see 0 2
take 0 000400003500000000000000280000006d636170693a303a303a310000000000000000000000000000000000000000000004000000000000 acted
take 0 010400003500000000000000280000006d636170693a303a303a320000000000000000000000000000000000000000000104000000000000 acted
again empty
spin 8845 empty
turn
see 0 1
take 0 000400000004000000000000090000004d0101000000000061 queued
call 2 ok 1 61
spin 3 empty
idle 1
call 3 empty
messages accepted 1 taken 1 dropped 0 queued 0 ring 0
lane 0 0 free 2 ring 0 queue 0 lent 0
lane 0 1 free 2 ring 0 queue 0 lent 0
lane 1 0 free 2 ring 0 queue 0 lent 0
lane 1 1 free 2 ring 0 queue 0 lent 0
ring 0 1 0 000000000000000000020000020000000002000000000000000200000200000000000300000001000000000000000100000000003800000000000000000000000000
ring 0 1 1 000400000000000019000000000000000006000000000000380000000000000000000300000001000000000000000300000000000000000001000000000000000000
end
";

/// A frame is taken that no domain puts.
pub const UNPUT: &str = "mcapi-report 1 serial
domain 0 nodes 1 pool 2
0.0 create 1
journal 0
turn
see 0 1
take 0 00 frame_short
call 1 ok 1024
messages accepted 0 taken 0 dropped 0 queued 0 ring 0
lane 0 0 free 2 ring 0 queue 0 lent 0
end
";

/// A buffer comes back that was not given back.
pub const UNGIVEN: &str = "mcapi-report 1 serial
domain 0 nodes 1 pool 2
0.0 create 1
journal 0
turn
back 0 1
call 1 ok 1024
messages accepted 0 taken 0 dropped 0 queued 0 ring 0
lane 0 0 free 2 ring 0 queue 0 lent 0
end
";

/// Each of two domains takes a frame of the other before it puts its own.
pub const CROSSED: &str = "mcapi-report 1 serial
domain 0 nodes 1 pool 2
domain 1 nodes 1 pool 2
link 0 1 size 2
0.0 raw 1 00
1.0 raw 0 00
journal 0
turn
see 1 1
take 1 00 frame_short
put 1 00
call 1 ok
journal 1
turn
see 0 1
take 0 00 frame_short
put 0 00
call 1 ok
messages accepted 0 taken 0 dropped 0 queued 0 ring 0
lane 0 0 free 2 ring 0 queue 0 lent 0
lane 0 1 free 2 ring 0 queue 0 lent 0
lane 1 0 free 2 ring 0 queue 0 lent 0
lane 1 1 free 2 ring 0 queue 0 lent 0
end
";
