//! Lines that wait, by the reports of serial runs.

use crate::serial::{read, write};
use board_runner::run_serial;
use outer_io::MemSink;
use std::alloc::Global;
use std::test::Fail;

/// A scenario, and what its report has behind the scenario, or parts of it.
pub type Row = (&'static [u8], &'static [&'static [u8]]);

/// The first wait has the limit 0, the second 3.
static TIMEOUTS: Row = (
    b"domain 0 nodes 1 pool 2
0.0 create 1
0.0 r = msg_recv_i 1 488
0.0 wait r 0
0.0 wait r 3
0.0 msg_available 1
0.0 try 3 msg_recv 1 488
",
    &[
        b"
journal 0
idle 1
call 1 ok 1024
idle 1
call 2 ok 0
wait 3
call 3 timeout
wait 4
idle 3
call 4 timeout
idle 1
call 5 ok 0
spin 2 empty
idle 1
call 6 empty
messages accepted 0 taken 0 dropped 0 queued 0 ring 0
lane 0 0 free 2 ring 0 queue 0 lent 0
end
",
    ],
);

/// A wait ends with the second of two requests, and tells its place.
static SECOND_OF_TWO: Row = (
    b"domain 0 nodes 1 pool 2
0.0 create 1
0.0 create 2
0.0 create 3
0.0 r = msg_recv_i 2 488
0.0 s = msg_recv_i 3 488
0.0 msg_send 1 0:0:3 0 61
0.0 wait_any r,s 5
0.0 wait_any r 0
0.0 d = connect 2 0:0:3 packet
",
    &[
        b"
journal 0
idle 1
call 1 ok 1024
idle 1
call 2 ok 1025
idle 1
call 3 ok 1026
idle 1
call 4 ok 0
idle 1
call 5 ok 1
idle 1
put 0 000400000204000000000000090000004d0101000000000061
call 6 ok
wait 7
turn
see 0 1
take 0 000400000204000000000000090000004d0101000000000061 handed
call 7 done 2 1 61
wait 8
call 8 timeout
turn
back 0 1
call 9 endp_busy
messages accepted 1 taken 1 dropped 0 queued 0 ring 0
lane 0 0 free 2 ring 0 queue 0 lent 0
end
",
    ],
);

/// Of eight requests the last and then the fifth is complete; the same label stands twice in a list, one of whose requests ended before.
static GROUPS: Row = (
    b"domain 0 nodes 1 pool 4
0.0 create 1
0.0 create 2
0.0 create 3
0.0 create 4
0.0 create 5
0.0 create 6
0.0 create 7
0.0 create 8
0.0 a = msg_recv_i 1 9
0.0 b = msg_recv_i 2 9
0.0 c = msg_recv_i 3 9
0.0 d = msg_recv_i 4 9
0.0 e = msg_recv_i 5 9
0.0 f = msg_recv_i 6 9
0.0 g = msg_recv_i 7 9
0.0 h = msg_recv_i 8 9
0.0 msg_send 1 0:0:8 0 68
0.0 msg_send 1 0:0:5 0 65
0.0 wait_any a,b,c,d,e,f,g,h 4294967295
0.0 wait_any a,b,c,d,f,g,h,h 0
0.0 wait_any a,a 0
0.0 wait_any e,a 1
",
    &[
        b"
call 18 ok
call 19 done 8 1 68
call 20 request_invalid
wait 21
call 21 timeout
wait 22
turn
back 0 1
see 0 1
take 0 000400000404000000000000090000004d0101000000000065 handed
call 22 done 1 1 65
messages accepted 2 taken 2 dropped 0 queued 0 ring 0
",
    ],
);

/// Requests that ended before their wait: by a delete, by a cancel, and by a wait.
static ENDED: Row = (
    b"domain 0 nodes 1 pool 2
0.0 create 1
0.0 create 2
0.0 r = msg_recv_i 1 488
0.0 delete 1
0.0 wait r 5
0.0 s = lookup 0:0:2
0.0 t = msg_recv_i 2 488
0.0 cancel t
0.0 wait_any s,t 5
0.0 wait_any t,s 5
0.0 wait s 5
0.0 wait s 5
",
    &[
        b"
journal 0
idle 1
call 1 ok 1024
idle 1
call 2 ok 1025
idle 1
call 3 ok 0
idle 1
call 4 ok 0
call 5 done endp_invalid
idle 1
call 6 ok 1
idle 1
call 7 ok 2
idle 1
call 8 ok
call 9 request_invalid
call 10 request_invalid
call 11 done 1025
call 12 request_invalid
messages accepted 0 taken 0 dropped 0 queued 0 ring 0
lane 0 0 free 2 ring 0 queue 0 lent 0
end
",
    ],
);

/// In a round domain 0 turns before domain 1: what it put is taken by the wait of domain 1 in the first round. The name that domain 1
/// announces is known to the wait of domain 0 in the second.
static ROUNDS: Row = (
    b"domain 0 nodes 1 pool 2
domain 1 nodes 1 pool 2
link 0 1 size 2
0.0 create 1
1.0 create 2
1.0 turn
0.0 turn
1.0 turn
1.0 r = msg_recv_i 2 488
0.0 msg_send 1 1:0:2 0 61
1.0 wait r 9
1.0 delete 2
0.0 a = lookup 1:0:3
1.0 create 3
0.0 wait a 9
",
    &[
        b"
call 4 ok 0
wait 5
turn
see 1 1
take 1 000400003500000000000000280000006d636170693a313a303a320000000000000000000000000000000000000000000004000001000000 acted
turn
see 1 1
take 1 010400003500000000000000280000006d636170693a313a303a330000000000000000000000000000000000000000000104000000000000 acted
call 5 done 1025
",
        b"
call 4 ok 0
wait 5
turn
see 0 1
take 0 000400000004000000000000090000004d0101000000000061 handed
call 5 done 1 61
",
    ],
);

/// Waits for channels and packets: the greatest limit, a packet that is lent under its label, and both kinds of close.
static CLOSES: Row = (
    b"domain 0 nodes 1 pool 2
domain 1 nodes 1 pool 2
link 0 1 size 4
0.0 create 1
1.0 create 2
0.0 a = lookup 1:0:2
0.0 wait a 10
0.0 c = connect 1 1:0:2 packet
0.0 wait c 4294967295
1.0 open_recv 2 packet
0.0 open_send 1 packet
1.0 p = pkt_recv_i 2
0.0 pkt_send 1 61
1.0 wait p 2
1.0 release p
1.0 q = pkt_recv_i 2
0.0 close_send 1
1.0 wait q 1
1.0 close_recv 2
0.0 turn
0.0 d = connect 1 1:0:2 packet
0.0 wait d 10
1.0 open_recv 2 packet
1.0 e = pkt_recv_i 2
1.0 close_recv 2
1.0 wait_any e 0
",
    &[
        b"
call 4 ok 1 1
wait 5
idle 1
turn
back 1 1
turn
see 1 1
take 1 000400000004000000000000080000004d01030001000000 acted
call 5 done accepted
",
        b"
call 3 ok 0
wait 4
turn
see 0 1
take 0 000400000004000000000000090000004d0107000100000061 handed
call 4 done 1 61
idle 1
call 5 ok
idle 1
call 6 ok 1
wait 7
turn
see 0 1
take 0 000400000004000000000000080000004d01090001000000 acted
call 7 done chan_closed
",
        b"
call 11 ok 0
call 12 done 1 chan_closed
channel 0 1 accepted 1 taken 1 dropped 0 queued 0 ring 0
",
    ],
);

/// Two domains over a ring of 2: the wait ends after two rounds, and a third message finds no buffer.
static SMALL_RING: Row = (
    b"domain 0 nodes 1 pool 2
domain 1 nodes 1 pool 2
link 0 1 size 2
0.0 create 1
1.0 create 2
0.0 a = lookup 1:0:2
0.0 wait a 10
0.0 msg_send 1 1:0:2 0 61
0.0 msg_send 1 1:0:2 0 62
0.0 msg_send 1 1:0:2 0 63
1.0 msg_recv 2 488
0.0 msg_send 1 1:0:2 0 63
1.0 msg_recv 2 0
",
    &[
        b"
journal 0
idle 1
call 1 ok 1024
turn
put 1 000400003500000000000000280000006d636170693a303a303a310000000000000000000000000000000000000000000004000000000000
call 2 ok 0
wait 3
idle 1
turn
back 1 1
see 1 1
take 1 000400003500000000000000280000006d636170693a313a303a320000000000000000000000000000000000000000000004000000000000 acted
call 3 done 1024
idle 1
put 1 000400000004000000000000090000004d0101000000000061
call 4 ok
idle 1
put 1 000400000004000000000000090000004d0101000000000062
call 5 ok
idle 1
call 6 no_buffer
turn
back 1 1
put 1 000400000004000000000000090000004d0101000000000063
call 7 ok
journal 1
idle 1
call 1 ok 1024
turn
put 0 000400003500000000000000280000006d636170693a313a303a320000000000000000000000000000000000000000000004000000000000
see 0 1
take 0 000400003500000000000000280000006d636170693a303a303a310000000000000000000000000000000000000000000004000000000000 acted
turn
back 0 1
turn
see 0 2
take 0 000400000004000000000000090000004d0101000000000061 queued
take 0 000400000004000000000000090000004d0101000000000062 queued
call 2 ok 1 61
turn
see 0 1
take 0 000400000004000000000000090000004d0101000000000063 queued
call 3 truncated 1 -
messages accepted 3 taken 2 dropped 0 queued 1 ring 0
lane 0 0 free 2 ring 0 queue 0 lent 0
lane 0 1 free 1 ring 0 queue 1 lent 0
lane 1 0 free 2 ring 0 queue 0 lent 0
lane 1 1 free 2 ring 0 queue 0 lent 0
end
",
    ],
);

/// A channel of scalars, whose connect is waited for: another size leaves the item, and a packet is of another type.
static SCALARS: Row = (
    b"domain 0 nodes 1 pool 2
domain 1 nodes 1 pool 2
link 0 1 size 4
0.0 create 1
1.0 create 2
0.0 a = lookup 1:0:2
0.0 wait a 10
0.0 c = connect 1 1:0:2 scalar
0.0 wait c 10
1.0 open_recv 2 scalar
0.0 open_send 1 scalar
0.0 scl_send 1 16 4660
1.0 scl_recv 2 32
1.0 scl_recv 2 16
1.0 scl_recv 2 16
1.0 p = pkt_recv 2
1.0 release p
",
    &[
        b"
journal 0
idle 1
call 1 ok 1024
turn
put 1 000400003500000000000000280000006d636170693a303a303a310000000000000000000000000000000000000000000004000000000000
call 2 ok 0
wait 3
idle 1
turn
back 1 1
see 1 1
take 1 000400003500000000000000280000006d636170693a313a303a320000000000000000000000000000000000000000000004000000000000 acted
call 3 done 1024
idle 1
put 1 000400000004000000000000080000004d01020101000000
call 4 ok 1 1
wait 5
idle 1
turn
back 1 1
turn
see 1 1
take 1 000400000004000000000000080000004d01030001000000 acted
call 5 done accepted
turn
see 1 1
take 1 000400000004000000000000080000004d01050001000000 acted
put 1 000400000004000000000000080000004d01060001000000
call 6 ok
idle 1
put 1 0004000000040000000000000a0000004d010802010000003412
call 7 ok
journal 1
idle 1
call 1 ok 1024
turn
put 0 000400003500000000000000280000006d636170693a313a303a320000000000000000000000000000000000000000000004000000000000
see 0 1
take 0 000400003500000000000000280000006d636170693a303a303a310000000000000000000000000000000000000000000004000000000000 acted
turn
back 0 1
turn
see 0 1
take 0 000400000004000000000000080000004d01020101000000 owed
turn
put 0 000400000004000000000000080000004d01030001000000
turn
back 0 1
idle 1
put 0 000400000004000000000000080000004d01050001000000
call 2 ok
turn
back 0 1
see 0 2
take 0 000400000004000000000000080000004d01060001000000 acted
take 0 0004000000040000000000000a0000004d010802010000003412 queued
call 3 scl_size
idle 1
call 4 ok 4660
idle 1
call 5 empty
idle 1
call 6 chan_type
idle 1
call 7 buf_invalid
channel 0 1 accepted 1 taken 1 dropped 0 queued 0 ring 0
messages accepted 0 taken 0 dropped 0 queued 0 ring 0
lane 0 0 free 2 ring 0 queue 0 lent 0
lane 0 1 free 4 ring 0 queue 0 lent 0
lane 1 0 free 4 ring 0 queue 0 lent 0
lane 1 1 free 2 ring 0 queue 0 lent 0
end
",
    ],
);

/// Whether these bytes stand somewhere in a text.
fn has_part(text: &[u8], part: &[u8]) -> bool {
    for at in 0..text.len() {
        if text[at..].starts_with(part) {
            return true;
        }
    }
    false
}

/// Whether the report of a scenario has these parts.
pub fn tells(alloc: Global, row: Row) -> Option<bool> {
    let (text, parts) = row;
    let scenario = read(alloc, text)?;
    let outcome = run_serial(alloc, &scenario).ok()?;
    let mut sink = MemSink::new(alloc, Vec::new(alloc), 512, 100_000).ok()?;
    write(&scenario, &outcome, &mut sink)?.ok()?;
    for part in parts {
        if !has_part(sink.written(), part) {
            return Some(false);
        }
    }
    Some(true)
}

#[test]
fn waits_are_told_line_by_line(rt: HostRuntime) -> Result<(), Fail> {
    for row in [
        TIMEOUTS,
        SMALL_RING,
        SCALARS,
        SECOND_OF_TWO,
        GROUPS,
        ENDED,
        ROUNDS,
        CLOSES,
    ] {
        assert!(rt; tells(rt.alloc(), row).ok_or("memory")?);
    }
    Ok(())
}
