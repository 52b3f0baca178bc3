use crate::refused_calls::assert_refused_calls;
use std::test::Fail;

/// Lines of calls on endpoints, messages and requests.
static REFUSED_CALLS: &str = "\
form: 0 create 1
form: 0.0.0 create 1
form: 0:0 create 1
form: foo
form: 0.0
number: . turn
number: .0 turn
number: x.0 turn
number: 0.16 turn
number: 8.0 turn
number: 0.00 turn
domain: 1.0 turn
number: 1.0 create 65536
domain: 1.0 x = turn
form: 0.0 create
form: 0.0 create 1 2
number: 0.0 create 65536
number: 0.0 create 01
number: 0.0 create a
form: 0.0 Create 1
form: 0.0 delete
number: 0.0 delete 65536
form: 0.0 turn 1
label: 0.0 wait a 1
form: 0.0 lookup 0:0:1
form: 0.0 x lookup 0:0:1
form: 0.0 x= lookup 0:0:1
form: 0.0 = = lookup 0:0:1
form: 0.0 X = lookup 0:0:1
form: 0.0 1x = lookup 0:0:1
form: 0.0 a_23456789_bcdefg = lookup 0:0:1
form: 0.0 x = y = lookup 0:0:1
form: 0.0 x = lookup 0:0
form: 0.0 x = lookup 0:0:0:0
form: 0.0 x = lookup 0.0.1
number: 0.0 x = lookup ::
number: 0.0 x = lookup 8:0:1
number: 0.0 x = lookup 0:16:1
number: 0.0 x = lookup 0:0:65536
number: 0.0 x = lookup 0:0:00
form: 0.0 try create 1
form: 0.0 try 3
form: 0.0 try 3 x = lookup 0:0:1
number: 0.0 try 0 create 1
number: 0.0 try 4294967296 create 1
number: 0.0 try 03 create 1
form: 0.0 try x create 1 2
form: 0.0 msg_send 1 0:0:2 1
form: 0.0 msg_send 1 0:0:2 1 00 00
form: 0.0 msg_send 1 002 9 0
number: 0.0 msg_send 1 0:0:2 4 0
number: 0.0 msg_send 65536 0:0:2 1 00
bytes: 0.0 msg_send 1 0:0:2 1 0
bytes: 0.0 msg_send 1 0:0:2 1 0g
bytes: 0.0 msg_send 1 0:0:2 1 --
bytes: 0.0 msg_send 1 0:0:2 1 -00
bytes: 1.0 msg_send 1 0:0:2 1 000
bytes: 0.0 x = msg_send 1 0:0:2 1 000
number: 0.0 msg_recv 1 9001
form: 0.0 msg_recv 1
form: 0.0 msg_recv_i 1 1
number: 0.0 x = msg_recv_i 1 9001
number: 0.0 msg_available 65536
label: 0.0 x = msg_available 1
label: 0.0 x = create 1
label: 0.0 x = turn
label: 0.0 test x
label: 0.0 cancel x
form: 0.0 test X
form: 0.0 test
form: 0.0 cancel x y
";

/// Lines of waits.
static REFUSED_WAITS: &str = "\
form: 0.0 wait
form: 0.0 wait x
form: 0.0 wait x 1 1
form: 0.0 wait 1
form: 0.0 wait 1 1
form: 0.0 wait X 1
form: 0.0 wait x, 1
form: 0.0 wait x,y 1
number: 0.0 wait x -1
number: 0.0 wait x 4294967296
number: 0.0 wait x 01
number: 0.0 wait x -
number: 0.0 wait x x
domain: 1.0 wait x 1
label: 0.0 wait x 1
label: 0.0 y = wait x 1
form: 0.0 try 2 wait x 1
form: 0.0 try 0 wait x 1
form: 0.0 try 4294967296 wait x 1
form: 0.0 y = try 1 wait x 1
form: 0.0 wait_any
form: 0.0 wait_any x
form: 0.0 wait_any x y 1
form: 0.0 wait_any , 1
form: 0.0 wait_any x, 1
form: 0.0 wait_any ,x 1
form: 0.0 wait_any x,,y 1
form: 0.0 wait_any x,Y 1
form: 0.0 wait_any 1,x 1
form: 0.0 wait_any a,b,c,d,e,f,g,h,i 1
form: 0.0 wait_any x,abcdefghijklmnopq 1
number: 0.0 wait_any x,y 4294967296
number: 0.0 wait_any x,y 00
domain: 1.0 wait_any x,y 1
label: 0.0 wait_any x,y 1
form: 0.0 try 1 wait_any x,y 1
form: 0.0 waits x 1
form: 0.0 wait-any x 1
form: 0.0 waitany x 1
";

/// Lines of raw frames. The sound ones are a message, an announcement, and a letter with bytes behind it.
static REFUSED_RAW: &str = "\
form: 0.0 raw
form: 0.0 raw 0
form: 0.0 raw 0 00 00
form: 0.0 Raw 0 00
number: 0.0 raw 8 00
number: 0.0 raw 00 00
number: 0.0 raw x 00
number: 0.0 raw - 00
number: 0.0 raw 256 00
number: 0.0 raw 0:0:1 00
number: 0.0 raw 8 -
number: 0.0 try 0 raw 0 -
bytes: 0.0 raw 0 -
bytes: 0.0 raw 0 0
bytes: 0.0 raw 0 0g
bytes: 0.0 raw 0 000
bytes: 1.0 raw 0 -
domain: 1.0 raw 0 00
label: 0.0 x = raw 0 00
form: 0.0 X = raw 0 00
sound: 0.0 raw 0 000400000004000000000000080000004d01010000000000
sound: 0.0 raw 0 000400000004000000000000080000004D01010000000000
sound: 0.0 raw 7 000400000004000000000000080000004d01010000000000
sound: 0.0 try 2 raw 0 000400000004000000000000080000004d01010000000000
domain: 1.0 raw 0 000400000004000000000000080000004d01010000000000
sound: 0.0 raw 0 000400000004000009090909080009094d01010000000000ff
sound: 0.0 raw 0 000400003500000000000000280000006d636170693a303a303a310000000000000000000000000000000000000000000004000000000000
form: 0.0 raws 0 00
";

#[test]
fn calls_are_refused_with_their_first_reason(rt: HostRuntime) -> Result<(), Fail> {
    assert_refused_calls(&rt, rt.alloc(), REFUSED_CALLS)?;
    assert_refused_calls(&rt, rt.alloc(), REFUSED_WAITS)?;
    assert_refused_calls(&rt, rt.alloc(), REFUSED_RAW)
}
