//! Connects that the far domain rejects.

use super::{ALONE, Case, LINKED, assert_reported};
use std::test::Fail;

/// The far endpoint is deleted before the connect comes.
const REJECTED_WITHOUT_AN_ENDPOINT: Case<'static> = Case {
    board: LINKED,
    lines: b"1.0 delete 2
0.0 c = connect 1 1:0:2 packet
0.0 try 10 test c
0.0 delete 1
",
    calls: b"call 1 ok 1024
call 2 ok 0
call 3 done 1024
call 4 ok 1 1
call 5 done rejected no_endpoint
call 6 ok 0
call 1 ok 1024
call 2 ok 0
",
    end: b"channel 0 1 accepted 0 taken 0 dropped 0 queued 0 ring 0
messages accepted 0 taken 0 dropped 0 queued 0 ring 0
lane 0 0 free 2 ring 0 queue 0 lent 0
lane 0 1 free 4 ring 0 queue 0 lent 0
lane 1 0 free 4 ring 0 queue 0 lent 0
lane 1 1 free 2 ring 0 queue 0 lent 0
end
",
};

/// The far endpoint has a channel. The rejected one keeps its number and its line.
const REJECTED_ON_A_CHANNEL: Case<'static> = Case {
    board: LINKED,
    lines: b"0.0 create 3
0.0 c = connect 1 1:0:2 packet
0.0 try 10 test c
0.0 d = connect 3 1:0:2 packet
0.0 try 10 test d
0.0 delete 3
",
    calls: b"call 1 ok 1024
call 2 ok 0
call 3 done 1024
call 4 ok 1025
call 5 ok 1 1
call 6 done accepted
call 7 ok 2 2
call 8 done rejected connected
call 9 ok 0
call 1 ok 1024
",
    end: b"channel 0 1 accepted 0 taken 0 dropped 0 queued 0 ring 0
channel 0 2 accepted 0 taken 0 dropped 0 queued 0 ring 0
messages accepted 0 taken 0 dropped 0 queued 0 ring 0
lane 0 0 free 2 ring 0 queue 0 lent 0
lane 0 1 free 4 ring 0 queue 0 lent 0
lane 1 0 free 4 ring 0 queue 0 lent 0
lane 1 1 free 2 ring 0 queue 0 lent 0
end
",
};

/// A message is queued at the far endpoint.
const REJECTED_WITH_A_MESSAGE: Case<'static> = Case {
    board: LINKED,
    lines: b"0.0 msg_send 1 1:0:2 0 61
0.0 c = connect 1 1:0:2 scalar
0.0 try 10 test c
0.0 delete 1
",
    calls: b"call 1 ok 1024
call 2 ok 0
call 3 done 1024
call 4 ok
call 5 ok 1 1
call 6 done rejected busy
call 7 ok 0
call 1 ok 1024
",
    end: b"channel 0 1 accepted 0 taken 0 dropped 0 queued 0 ring 0
messages accepted 1 taken 0 dropped 0 queued 1 ring 0
lane 0 0 free 2 ring 0 queue 0 lent 0
lane 0 1 free 3 ring 0 queue 1 lent 0
lane 1 0 free 4 ring 0 queue 0 lent 0
lane 1 1 free 2 ring 0 queue 0 lent 0
end
",
};

/// A receive waits at the far endpoint. Once it is cancelled, the next connect is accepted.
const REJECTED_WITH_A_RECEIVE: Case<'static> = Case {
    board: LINKED,
    lines: b"1.0 r = msg_recv_i 2 488
0.0 c = connect 1 1:0:2 scalar
0.0 try 10 test c
1.0 cancel r
0.0 e = connect 1 1:0:2 scalar
0.0 try 10 test e
",
    calls: b"call 1 ok 1024
call 2 ok 0
call 3 done 1024
call 4 ok 1 1
call 5 done rejected busy
call 6 ok 2 2
call 7 done accepted
call 1 ok 1024
call 2 ok 0
call 3 ok
",
    end: b"channel 0 1 accepted 0 taken 0 dropped 0 queued 0 ring 0
channel 0 2 accepted 0 taken 0 dropped 0 queued 0 ring 0
messages accepted 0 taken 0 dropped 0 queued 0 ring 0
lane 0 0 free 2 ring 0 queue 0 lent 0
lane 0 1 free 4 ring 0 queue 0 lent 0
lane 1 0 free 4 ring 0 queue 0 lent 0
lane 1 1 free 2 ring 0 queue 0 lent 0
end
",
};

/// An endpoint has its channel when its own connect comes.
const CONNECTED_TO_ITSELF: Case<'static> = Case {
    board: ALONE,
    lines: b"0.0 c = connect 1 0:0:1 packet
0.0 try 10 test c
0.0 delete 1
",
    calls: b"call 1 ok 1024
call 2 ok 1025
call 3 ok 0 1
call 4 done rejected connected
call 5 ok 0
",
    end: b"channel 0 1 accepted 0 taken 0 dropped 0 queued 0 ring 0
messages accepted 0 taken 0 dropped 0 queued 0 ring 0
lane 0 0 free 4 ring 0 queue 0 lent 0
end
",
};

static CASES: [Case<'static>; 5] = [
    REJECTED_WITHOUT_AN_ENDPOINT,
    REJECTED_ON_A_CHANNEL,
    REJECTED_WITH_A_MESSAGE,
    REJECTED_WITH_A_RECEIVE,
    CONNECTED_TO_ITSELF,
];

#[test]
fn connects_are_rejected(rt: HostRuntime) -> Result<(), Fail> {
    assert_reported(&rt, rt.alloc(), &CASES)
}
