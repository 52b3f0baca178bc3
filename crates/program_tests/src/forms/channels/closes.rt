//! Channels that end, and endpoints on them.

use super::{ALONE, Case, LINKED, assert_reported};
use std::test::Fail;

/// The receiver closes first. Then the sender's close ends the channel at both ends.
const RECEIVER_CLOSES_FIRST: Case<'static> = Case {
    board: LINKED,
    lines: b"0.0 c = connect 1 1:0:2 packet
0.0 try 10 test c
1.0 open_recv 2 packet
0.0 open_send 1 packet
1.0 close_recv 2
1.0 close_recv 2
0.0 close_send 1
0.0 close_send 1
0.0 delete 1
1.0 try 3 delete 2
",
    calls: b"call 1 ok 1024
call 2 ok 0
call 3 done 1024
call 4 ok 1 1
call 5 done accepted
call 6 ok
call 7 ok
call 8 not_connected
call 9 ok 0
call 1 ok 1024
call 2 ok
call 3 ok 0
call 4 chan_closed
call 5 ok 0
",
    end: b"channel 0 1 accepted 0 taken 0 dropped 0 queued 0 ring 0
messages accepted 0 taken 0 dropped 0 queued 0 ring 0
lane 0 0 free 2 ring 0 queue 0 lent 0
lane 0 1 free 4 ring 0 queue 0 lent 0
lane 1 0 free 4 ring 0 queue 0 lent 0
lane 1 1 free 2 ring 0 queue 0 lent 0
end
",
};

/// The sender closes first. It cannot open again, and the receiver's close ends the channel.
const SENDER_CLOSES_FIRST: Case<'static> = Case {
    board: LINKED,
    lines: b"0.0 c = connect 1 1:0:2 scalar
0.0 try 10 test c
1.0 open_recv 2 scalar
0.0 open_send 1 scalar
0.0 close_send 1
0.0 open_send 1 scalar
0.0 close_send 1
1.0 close_recv 2
1.0 close_recv 2
0.0 delete 1
1.0 delete 2
",
    calls: b"call 1 ok 1024
call 2 ok 0
call 3 done 1024
call 4 ok 1 1
call 5 done accepted
call 6 ok
call 7 ok
call 8 chan_closed
call 9 chan_closed
call 10 ok 0
call 1 ok 1024
call 2 ok
call 3 ok 0
call 4 not_connected
call 5 ok 0
",
    end: b"channel 0 1 accepted 0 taken 0 dropped 0 queued 0 ring 0
messages accepted 0 taken 0 dropped 0 queued 0 ring 0
lane 0 0 free 2 ring 0 queue 0 lent 0
lane 0 1 free 4 ring 0 queue 0 lent 0
lane 1 0 free 4 ring 0 queue 0 lent 0
lane 1 1 free 2 ring 0 queue 0 lent 0
end
",
};

/// Both ends close without being opened, and then the endpoints may be deleted.
const CLOSED_UNOPENED: Case<'static> = Case {
    board: LINKED,
    lines: b"0.0 c = connect 1 1:0:2 packet
0.0 try 10 test c
0.0 close_send 1
1.0 close_recv 2
0.0 try 3 delete 1
",
    calls: b"call 1 ok 1024
call 2 ok 0
call 3 done 1024
call 4 ok 1 1
call 5 done accepted
call 6 ok
call 7 ok 0
call 1 ok 1024
call 2 ok 0
",
    end: b"channel 0 1 accepted 0 taken 0 dropped 0 queued 0 ring 0
messages accepted 0 taken 0 dropped 0 queued 0 ring 0
lane 0 0 free 2 ring 0 queue 0 lent 0
lane 0 1 free 4 ring 0 queue 0 lent 0
lane 1 0 free 4 ring 0 queue 0 lent 0
lane 1 1 free 2 ring 0 queue 0 lent 0
end
",
};

/// Both ends are of one domain: the pool carries the letters.
const WITHIN_A_DOMAIN: Case<'static> = Case {
    board: ALONE,
    lines: b"0.0 c = connect 1 0:0:2 packet
0.0 try 10 test c
0.0 open_recv 2 packet
0.0 open_send 1 packet
0.0 close_recv 2
0.0 close_send 1
0.0 try 3 delete 1
0.0 try 3 delete 2
",
    calls: b"call 1 ok 1024
call 2 ok 1025
call 3 ok 0 1
call 4 done accepted
call 5 ok
call 6 ok
call 7 ok 0
call 8 ok
call 9 ok 0
call 10 ok 0
",
    end: b"channel 0 1 accepted 0 taken 0 dropped 0 queued 0 ring 0
messages accepted 0 taken 0 dropped 0 queued 0 ring 0
lane 0 0 free 4 ring 0 queue 0 lent 0
end
",
};

/// No endpoint is deleted on a channel. A try waits for the channel's end.
const DELETED_ON_A_CHANNEL: Case<'static> = Case {
    board: LINKED,
    lines: b"0.0 c = connect 1 1:0:2 packet
0.0 try 10 test c
1.0 open_recv 2 packet
0.0 open_send 1 packet
0.0 delete 1
1.0 try 2 delete 2
0.0 close_send 1
1.0 close_recv 2
0.0 try 10 delete 1
1.0 try 10 delete 2
",
    calls: b"call 1 ok 1024
call 2 ok 0
call 3 done 1024
call 4 ok 1 1
call 5 done accepted
call 6 ok
call 7 chan_connected
call 8 ok
call 9 ok 0
call 1 ok 1024
call 2 ok
call 3 chan_connected
call 4 ok 0
call 5 ok 0
",
    end: b"channel 0 1 accepted 0 taken 0 dropped 0 queued 0 ring 0
messages accepted 0 taken 0 dropped 0 queued 0 ring 0
lane 0 0 free 2 ring 0 queue 0 lent 0
lane 0 1 free 4 ring 0 queue 0 lent 0
lane 1 0 free 4 ring 0 queue 0 lent 0
lane 1 1 free 2 ring 0 queue 0 lent 0
end
",
};

/// The next channel has the next number, and may be of the other kind.
const SECOND_CHANNEL: Case<'static> = Case {
    board: LINKED,
    lines: b"0.0 c = connect 1 1:0:2 packet
0.0 try 10 test c
1.0 open_recv 2 packet
0.0 open_send 1 packet
0.0 close_send 1
1.0 close_recv 2
0.0 turn
0.0 d = connect 1 1:0:2 scalar
0.0 try 10 test d
1.0 open_recv 2 packet
1.0 open_recv 2 scalar
",
    calls: b"call 1 ok 1024
call 2 ok 0
call 3 done 1024
call 4 ok 1 1
call 5 done accepted
call 6 ok
call 7 ok
call 8 ok
call 9 ok 2 2
call 10 done accepted
call 1 ok 1024
call 2 ok
call 3 ok 0
call 4 chan_type
call 5 ok
",
    end: b"channel 0 1 accepted 0 taken 0 dropped 0 queued 0 ring 0
channel 0 2 accepted 0 taken 0 dropped 0 queued 0 ring 0
messages accepted 0 taken 0 dropped 0 queued 0 ring 0
lane 0 0 free 2 ring 0 queue 0 lent 0
lane 0 1 free 4 ring 0 queue 0 lent 0
lane 1 0 free 3 ring 1 queue 0 lent 0
lane 1 1 free 2 ring 0 queue 0 lent 0
end
",
};

/// A cancel ends the request alone: the connection goes on.
const CANCELLED_CONNECT: Case<'static> = Case {
    board: LINKED,
    lines: b"0.0 c = connect 1 1:0:2 packet
0.0 cancel c
0.0 test c
1.0 try 10 open_recv 2 packet
0.0 try 10 open_send 1 packet
0.0 delete 1
",
    calls: b"call 1 ok 1024
call 2 ok 0
call 3 done 1024
call 4 ok 1 1
call 5 ok
call 6 request_invalid
call 7 ok
call 8 chan_connected
call 1 ok 1024
call 2 ok
",
    end: b"channel 0 1 accepted 0 taken 0 dropped 0 queued 0 ring 0
messages accepted 0 taken 0 dropped 0 queued 0 ring 0
lane 0 0 free 2 ring 0 queue 0 lent 0
lane 0 1 free 3 ring 1 queue 0 lent 0
lane 1 0 free 4 ring 0 queue 0 lent 0
lane 1 1 free 2 ring 0 queue 0 lent 0
end
",
};

/// Tries wait for a connect to come, for its Accept, and for a channel to end.
const TRIES: Case<'static> = Case {
    board: LINKED,
    lines: b"0.0 c = connect 1 1:0:2 packet
1.0 try 2 open_recv 2 scalar
1.0 try 5 open_recv 2 packet
0.0 try 5 open_send 1 packet
0.0 close_send 1
0.0 try 4 delete 1
1.0 try 4 close_recv 2
0.0 try 4 delete 1
",
    calls: b"call 1 ok 1024
call 2 ok 0
call 3 done 1024
call 4 ok 1 1
call 5 ok
call 6 ok
call 7 chan_connected
call 8 ok 0
call 1 ok 1024
call 2 chan_type
call 3 ok
call 4 ok 0
",
    end: b"channel 0 1 accepted 0 taken 0 dropped 0 queued 0 ring 0
messages accepted 0 taken 0 dropped 0 queued 0 ring 0
lane 0 0 free 2 ring 0 queue 0 lent 0
lane 0 1 free 4 ring 0 queue 0 lent 0
lane 1 0 free 4 ring 0 queue 0 lent 0
lane 1 1 free 2 ring 0 queue 0 lent 0
end
",
};

static CASES: [Case<'static>; 8] = [
    RECEIVER_CLOSES_FIRST,
    SENDER_CLOSES_FIRST,
    CLOSED_UNOPENED,
    WITHIN_A_DOMAIN,
    DELETED_ON_A_CHANNEL,
    SECOND_CHANNEL,
    CANCELLED_CONNECT,
    TRIES,
];

#[test]
fn channels_end(rt: HostRuntime) -> Result<(), Fail> {
    assert_reported(&rt, rt.alloc(), &CASES)
}
