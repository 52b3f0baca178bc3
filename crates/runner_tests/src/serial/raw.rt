//! Lines that put raw frames, by the reports of serial runs.

use crate::serial::waits::{Row, tells};
use std::test::Fail;

/// Four frames with faults of a letter and of an announcement, on a link of four buffers. Each has its word, and no buffer is lost.
static LETTERS: Row = (
    b"domain 0 nodes 1 pool 2
domain 1 nodes 1 pool 2
link 0 1 size 4
0.0 raw 1 000400000004000000000000080000000001010000000000
0.0 raw 1 000400000004000000000000080000004d09010000000000
0.0 raw 1 000400000004000000000000080000004d014d0000000000
0.0 raw 1 00040000350000000000000027000000000000000000000000000000000000000000000000000000000000000000000000000000000000
1.0 turn
",
    &[
        b"
journal 0
idle 1
put 1 000400000004000000000000080000000001010000000000
call 1 ok
idle 1
put 1 000400000004000000000000080000004d09010000000000
call 2 ok
idle 1
put 1 000400000004000000000000080000004d014d0000000000
call 3 ok
idle 1
put 1 00040000350000000000000027000000000000000000000000000000000000000000000000000000000000000000000000000000000000
call 4 ok
journal 1
turn
see 0 4
take 0 000400000004000000000000080000000001010000000000 magic
take 0 000400000004000000000000080000004d09010000000000 version
take 0 000400000004000000000000080000004d014d0000000000 kind
take 0 00040000350000000000000027000000000000000000000000000000000000000000000000000000000000000000000000000000000000 ns_size
call 1 ok
messages accepted 0 taken 0 dropped 0 queued 0 ring 0
lane 0 0 free 2 ring 0 queue 0 lent 0
lane 0 1 free 4 ring 0 queue 0 lent 0
lane 1 0 free 4 ring 0 queue 0 lent 0
lane 1 1 free 2 ring 0 queue 0 lent 0
end
",
    ],
);

/// Nine frames, one for each other fault that fits on a link, on a link of 16 buffers. A turn takes eight of them.
static FRAMES: Row = (
    b"domain 0 nodes 1 pool 2
domain 1 nodes 1 pool 2
link 0 1 size 16
0.0 raw 1 00
0.0 raw 1 00040000000400000000000001000000
0.0 raw 1 00040000000400000000000000000000
0.0 raw 1 000400000004000000000000080000004d01010400000000
0.0 raw 1 000400000004000000000000080000004d01020000000000
0.0 raw 1 000400000004000000000000080000004d01010001000000
0.0 raw 1 000400000004000000000000090000004d0108020100000000
0.0 raw 1 0004000035000000000000002800000061000000000000000000000000000000000000000000000000000000000000000004000002000000
0.0 raw 1 0004000035000000000000002800000000000000000000000000000000000000000000000000000000000000000000000000000000000000
1.0 turn
1.0 turn
",
    &[
        b"
journal 0
idle 1
put 1 00
call 1 ok
idle 1
put 1 00040000000400000000000001000000
call 2 ok
idle 1
put 1 00040000000400000000000000000000
call 3 ok
idle 1
put 1 000400000004000000000000080000004d01010400000000
call 4 ok
idle 1
put 1 000400000004000000000000080000004d01020000000000
call 5 ok
idle 1
put 1 000400000004000000000000080000004d01010001000000
call 6 ok
idle 1
put 1 000400000004000000000000090000004d0108020100000000
call 7 ok
idle 1
put 1 0004000035000000000000002800000061000000000000000000000000000000000000000000000000000000000000000004000002000000
call 8 ok
idle 1
put 1 0004000035000000000000002800000000000000000000000000000000000000000000000000000000000000000000000000000000000000
call 9 ok
journal 1
turn
see 0 9
take 0 00 frame_short
take 0 00040000000400000000000001000000 header_len
take 0 00040000000400000000000000000000 payload_short
take 0 000400000004000000000000080000004d01010400000000 argument
take 0 000400000004000000000000080000004d01020000000000 channel
take 0 000400000004000000000000080000004d01010001000000 channel
take 0 000400000004000000000000090000004d0108020100000000 size
take 0 0004000035000000000000002800000061000000000000000000000000000000000000000000000000000000000000000004000002000000 ns_flags
call 1 ok
turn
see 0 1
take 0 0004000035000000000000002800000000000000000000000000000000000000000000000000000000000000000000000000000000000000 ns_name
call 2 ok
messages accepted 0 taken 0 dropped 0 queued 0 ring 0
lane 0 0 free 2 ring 0 queue 0 lent 0
lane 0 1 free 16 ring 0 queue 0 lent 0
lane 1 0 free 16 ring 0 queue 0 lent 0
lane 1 1 free 2 ring 0 queue 0 lent 0
end
",
    ],
);

/// Raw frames to a domain that is not declared, and to the domain itself, whose pool has two buffers.
static OWN_LANE: Row = (
    b"domain 0 nodes 1 pool 2
0.0 raw 5 00
0.0 raw 0 00
0.0 turn
0.0 turn
0.0 raw 0 00
0.0 raw 0 01
0.0 raw 0 02
0.0 turn
",
    &[
        b"
journal 0
idle 1
call 1 link_invalid
idle 1
put 0 00
call 2 ok
turn
see 0 1
take 0 00 frame_short
call 3 ok
turn
back 0 1
call 4 ok
idle 1
put 0 00
call 5 ok
turn
see 0 1
take 0 00 frame_short
put 0 01
call 6 ok
turn
back 0 1
see 0 1
take 0 01 frame_short
put 0 02
call 7 ok
turn
back 0 1
see 0 1
take 0 02 frame_short
call 8 ok
messages accepted 0 taken 0 dropped 0 queued 0 ring 0
lane 0 0 free 2 ring 0 queue 0 lent 0
end
",
    ],
);

/// A link of two buffers: the third frame finds none free, and the fourth as soon as the first two came back.
static NONE_FREE: Row = (
    b"domain 0 nodes 1 pool 2
domain 1 nodes 1 pool 2
link 0 1 size 2
0.0 raw 1 00
0.0 raw 1 00
0.0 raw 1 00
0.0 try 3 raw 1 00
1.0 turn
",
    &[
        b"
journal 0
idle 1
put 1 00
call 1 ok
idle 1
put 1 00
call 2 ok
idle 1
call 3 no_buffer
spin 1 no_buffer
turn
back 1 2
put 1 00
call 4 ok
journal 1
turn
see 0 2
take 0 00 frame_short
take 0 00 frame_short
turn
see 0 1
take 0 00 frame_short
call 1 ok
messages accepted 0 taken 0 dropped 0 queued 0 ring 0
lane 0 0 free 2 ring 0 queue 0 lent 0
lane 0 1 free 2 ring 0 queue 0 lent 0
lane 1 0 free 2 ring 0 queue 0 lent 0
lane 1 1 free 2 ring 0 queue 0 lent 0
end
",
    ],
);

#[test]
fn raw_frames_have_their_words(rt: HostRuntime) -> Result<(), Fail> {
    for row in [LETTERS, FRAMES, OWN_LANE, NONE_FREE] {
        assert!(rt; tells(rt.alloc(), row).ok_or("memory")?);
    }
    Ok(())
}
