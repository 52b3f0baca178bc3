//! Packets and scalars that are sent over channels, and what becomes of them.

use super::{Case, LINKED, assert_reported};
use std::test::Fail;

/// A scalar is received by its own bits alone, and as no packet.
const SCALAR: Case<'static> = Case {
    board: LINKED,
    lines: b"0.0 c = connect 1 1:0:2 scalar
0.0 try 10 test c
1.0 open_recv 2 scalar
0.0 open_send 1 scalar
0.0 scl_send 1 16 4660
1.0 scl_recv 2 32
1.0 scl_recv 2 16
1.0 scl_recv 2 16
1.0 p = pkt_recv 2
1.0 release p
",
    calls: b"call 1 ok 1024
call 2 ok 0
call 3 done 1024
call 4 ok 1 1
call 5 done accepted
call 6 ok
call 7 ok
call 1 ok 1024
call 2 ok
call 3 scl_size
call 4 ok 4660
call 5 empty
call 6 chan_type
call 7 buf_invalid
",
    end: b"channel 0 1 accepted 1 taken 1 dropped 0 queued 0 ring 0
messages accepted 0 taken 0 dropped 0 queued 0 ring 0
lane 0 0 free 2 ring 0 queue 0 lent 0
lane 0 1 free 4 ring 0 queue 0 lent 0
lane 1 0 free 4 ring 0 queue 0 lent 0
lane 1 1 free 2 ring 0 queue 0 lent 0
end
",
};

/// Packets fill the lane. The receiver closes with three of them queued and one lent.
const RECEIVER_CLOSES: Case<'static> = Case {
    board: LINKED,
    lines: b"0.0 c = connect 1 1:0:2 packet
0.0 try 10 test c
1.0 open_recv 2 packet
0.0 open_send 1 packet
0.0 pkt_send 1 61
0.0 pkt_send 1 62
0.0 pkt_send 1 63
0.0 pkt_send 1 64
1.0 p = pkt_recv 2
0.0 pkt_send 1 64
1.0 close_recv 2
0.0 pkt_send 1 65
0.0 close_send 1
1.0 release p
0.0 pkt_send 1 65
0.0 delete 1
",
    calls: b"call 1 ok 1024
call 2 ok 0
call 3 done 1024
call 4 ok 1 1
call 5 done accepted
call 6 ok
call 7 ok
call 8 ok
call 9 ok
call 10 no_buffer
call 11 ok
call 12 chan_closed
call 13 ok
call 14 not_connected
call 15 ok 0
call 1 ok 1024
call 2 ok
call 3 ok 1 61
call 4 ok 3
call 5 ok
",
    end: b"channel 0 1 accepted 4 taken 1 dropped 3 queued 0 ring 0
messages accepted 0 taken 0 dropped 0 queued 0 ring 0
lane 0 0 free 2 ring 0 queue 0 lent 0
lane 0 1 free 4 ring 0 queue 0 lent 0
lane 1 0 free 4 ring 0 queue 0 lent 0
lane 1 1 free 2 ring 0 queue 0 lent 0
end
",
};

/// The sender closes with a packet on its way, which is received still.
const SENDER_CLOSES: Case<'static> = Case {
    board: LINKED,
    lines: b"0.0 c = connect 1 1:0:2 packet
0.0 try 10 test c
1.0 open_recv 2 packet
0.0 open_send 1 packet
0.0 pkt_send 1 61
0.0 close_send 1
0.0 pkt_send 1 62
1.0 p = pkt_recv 2
1.0 q = pkt_recv 2
0.0 delete 1
",
    calls: b"call 1 ok 1024
call 2 ok 0
call 3 done 1024
call 4 ok 1 1
call 5 done accepted
call 6 ok
call 7 ok
call 8 ok
call 9 chan_closed
call 10 chan_connected
call 1 ok 1024
call 2 ok
call 3 ok 1 61
call 4 chan_closed
",
    end: b"channel 0 1 accepted 1 taken 1 dropped 0 queued 0 ring 0
messages accepted 0 taken 0 dropped 0 queued 0 ring 0
lane 0 0 free 2 ring 0 queue 0 lent 0
lane 0 1 free 3 ring 0 queue 0 lent 1
lane 1 0 free 4 ring 0 queue 0 lent 0
lane 1 1 free 2 ring 0 queue 0 lent 0
end
",
};

/// A message to an endpoint on a channel is dropped.
const MESSAGE_TO_A_CHANNEL: Case<'static> = Case {
    board: LINKED,
    lines: b"0.0 c = connect 1 1:0:2 packet
0.0 try 10 test c
1.0 open_recv 2 packet
0.0 open_send 1 packet
0.0 create 3
0.0 msg_send 3 1:0:2 0 61
1.0 turn
",
    calls: b"call 1 ok 1024
call 2 ok 0
call 3 done 1024
call 4 ok 1 1
call 5 done accepted
call 6 ok
call 7 ok 1025
call 8 ok
call 1 ok 1024
call 2 ok
call 3 ok
",
    end: b"channel 0 1 accepted 0 taken 0 dropped 0 queued 0 ring 0
messages accepted 1 taken 0 dropped 1 queued 0 ring 0
lane 0 0 free 2 ring 0 queue 0 lent 0
lane 0 1 free 4 ring 0 queue 0 lent 0
lane 1 0 free 4 ring 0 queue 0 lent 0
lane 1 1 free 2 ring 0 queue 0 lent 0
end
",
};

static ITEMS: [Case<'static>; 4] = [SCALAR, RECEIVER_CLOSES, SENDER_CLOSES, MESSAGE_TO_A_CHANNEL];

#[test]
fn items_are_sent_and_received(rt: HostRuntime) -> Result<(), Fail> {
    assert_reported(&rt, rt.alloc(), &ITEMS)
}
