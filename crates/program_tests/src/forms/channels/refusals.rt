//! Calls that are refused at an endpoint with a channel, and calls of channels that are refused.

use super::{Case, LINKED, ONE_BUFFER, assert_reported};
use std::test::Fail;

/// A message to an endpoint on a channel is dropped, and such an endpoint has no message calls.
const MESSAGE_TO_A_CHANNEL: Case<'static> = Case {
    board: LINKED,
    lines: b"0.0 create 3
0.0 c = connect 1 1:0:2 packet
0.0 try 10 test c
1.0 open_recv 2 packet
0.0 open_send 1 packet
0.0 msg_send 3 1:0:2 0 61
1.0 turn
0.0 msg_send 1 1:0:2 0 61
1.0 msg_recv 2 488
1.0 r = msg_recv_i 2 488
1.0 msg_available 2
",
    calls: b"call 1 ok 1024
call 2 ok 0
call 3 done 1024
call 4 ok 1025
call 5 ok 1 1
call 6 done accepted
call 7 ok
call 8 ok
call 9 on_channel
call 1 ok 1024
call 2 ok
call 3 ok
call 4 on_channel
call 5 on_channel
call 6 on_channel
",
    end: b"channel 0 1 accepted 0 taken 0 dropped 0 queued 0 ring 0
messages accepted 1 taken 0 dropped 1 queued 0 ring 0
lane 0 0 free 2 ring 0 queue 0 lent 0
lane 0 1 free 4 ring 0 queue 0 lent 0
lane 1 0 free 4 ring 0 queue 0 lent 0
lane 1 1 free 2 ring 0 queue 0 lent 0
end
",
};

/// Refused connects number no channel and give no request.
const CONNECTS_REFUSED: Case<'static> = Case {
    board: LINKED,
    lines: b"0.0 b = connect 9 1:0:2 packet
0.0 d = connect 1 1:0:9 packet
0.0 e = connect 1 0:0:9 packet
0.0 r = msg_recv_i 1 488
0.0 f = connect 1 1:0:2 packet
0.0 cancel r
0.0 create 3
0.0 msg_send 3 0:0:1 0 61
0.0 turn
0.0 g = connect 1 1:0:2 packet
0.0 msg_recv 1 488
0.0 h = connect 1 1:0:2 packet
0.0 i = connect 1 1:0:2 packet
0.0 test d
",
    calls: b"call 1 ok 1024
call 2 ok 0
call 3 done 1024
call 4 endp_invalid
call 5 peer_invalid
call 6 peer_invalid
call 7 ok 1
call 8 endp_busy
call 9 ok
call 10 ok 1025
call 11 ok
call 12 ok
call 13 endp_busy
call 14 ok 1 61
call 15 ok 2 1
call 16 chan_connected
call 17 request_invalid
call 1 ok 1024
",
    end: b"channel 0 1 accepted 0 taken 0 dropped 0 queued 0 ring 0
messages accepted 1 taken 1 dropped 0 queued 0 ring 0
lane 0 0 free 2 ring 0 queue 0 lent 0
lane 0 1 free 2 ring 2 queue 0 lent 0
lane 1 0 free 4 ring 0 queue 0 lent 0
lane 1 1 free 2 ring 0 queue 0 lent 0
end
",
};

/// Each word with which an open is refused but that of a lane without a buffer.
const OPENS_REFUSED: Case<'static> = Case {
    board: LINKED,
    lines: b"0.0 open_send 9 packet
0.0 open_send 1 packet
1.0 open_recv 9 packet
1.0 open_recv 2 packet
0.0 c = connect 1 1:0:2 packet
0.0 open_send 1 packet
0.0 open_recv 1 packet
0.0 try 10 test c
0.0 open_recv 1 packet
1.0 open_send 2 packet
0.0 open_send 1 scalar
1.0 open_recv 2 scalar
0.0 open_send 1 packet
0.0 open_send 1 packet
1.0 open_recv 2 packet
1.0 open_recv 2 packet
1.0 close_recv 2
0.0 open_send 1 packet
1.0 open_recv 2 packet
",
    calls: b"call 1 ok 1024
call 2 ok 0
call 3 done 1024
call 4 endp_invalid
call 5 not_connected
call 6 ok 1 1
call 7 not_connected
call 8 not_connected
call 9 done accepted
call 10 chan_direction
call 11 chan_type
call 12 ok
call 13 already_open
call 14 chan_closed
call 1 ok 1024
call 2 endp_invalid
call 3 not_connected
call 4 chan_direction
call 5 chan_type
call 6 ok
call 7 already_open
call 8 ok 0
call 9 chan_closed
",
    end: b"channel 0 1 accepted 0 taken 0 dropped 0 queued 0 ring 0
messages accepted 0 taken 0 dropped 0 queued 0 ring 0
lane 0 0 free 2 ring 0 queue 0 lent 0
lane 0 1 free 4 ring 0 queue 0 lent 0
lane 1 0 free 4 ring 0 queue 0 lent 0
lane 1 1 free 2 ring 0 queue 0 lent 0
end
",
};

/// Each word with which a close is refused but that of a lane without a buffer.
const CLOSES_REFUSED: Case<'static> = Case {
    board: LINKED,
    lines: b"0.0 close_send 9
1.0 close_recv 9
0.0 close_send 1
1.0 close_recv 2
0.0 c = connect 1 1:0:2 scalar
0.0 close_send 1
0.0 try 10 test c
0.0 close_recv 1
1.0 close_send 2
1.0 close_recv 2
1.0 close_recv 2
0.0 close_send 1
0.0 close_send 1
",
    calls: b"call 1 ok 1024
call 2 ok 0
call 3 done 1024
call 4 endp_invalid
call 5 not_connected
call 6 ok 1 1
call 7 not_connected
call 8 done accepted
call 9 chan_direction
call 10 ok
call 11 not_connected
call 1 ok 1024
call 2 endp_invalid
call 3 not_connected
call 4 chan_direction
call 5 ok 0
call 6 chan_closed
",
    end: b"channel 0 1 accepted 0 taken 0 dropped 0 queued 0 ring 0
messages accepted 0 taken 0 dropped 0 queued 0 ring 0
lane 0 0 free 2 ring 0 queue 0 lent 0
lane 0 1 free 3 ring 1 queue 0 lent 0
lane 1 0 free 4 ring 0 queue 0 lent 0
lane 1 1 free 2 ring 0 queue 0 lent 0
end
",
};

/// The pool's one buffer is queued: no connect, no open and no close finds another.
const NO_BUFFER: Case<'static> = Case {
    board: ONE_BUFFER,
    lines: b"0.0 msg_send 3 0:0:3 0 61
0.0 c = connect 1 0:0:2 packet
0.0 msg_recv 3 488
0.0 d = try 3 connect 1 0:0:2 packet
0.0 try 9 test d
0.0 turn
0.0 msg_send 3 0:0:3 0 62
0.0 open_send 1 packet
0.0 open_recv 2 packet
0.0 close_send 1
0.0 close_recv 2
0.0 msg_recv 3 488
0.0 try 3 close_recv 2
",
    calls: b"call 1 ok 1024
call 2 ok 1025
call 3 ok 1026
call 4 ok
call 5 no_buffer
call 6 ok 1 61
call 7 ok 0 1
call 8 done accepted
call 9 ok
call 10 ok
call 11 no_buffer
call 12 no_buffer
call 13 no_buffer
call 14 no_buffer
call 15 ok 1 62
call 16 ok 0
",
    end: b"channel 0 1 accepted 0 taken 0 dropped 0 queued 0 ring 0
messages accepted 2 taken 2 dropped 0 queued 0 ring 0
lane 0 0 free 0 ring 1 queue 0 lent 0
end
",
};

static CASES: [Case<'static>; 5] = [
    MESSAGE_TO_A_CHANNEL,
    CONNECTS_REFUSED,
    OPENS_REFUSED,
    CLOSES_REFUSED,
    NO_BUFFER,
];

#[test]
fn calls_of_channels_are_refused(rt: HostRuntime) -> Result<(), Fail> {
    assert_reported(&rt, rt.alloc(), &CASES)
}
