//! Messages and packets of several frames, end to end: what each call answers, and what becomes of each frame.

use super::payloads::{Pieces, joined};
use super::{EMPTY, Given, SERIAL, is_right, lines_of, outcome_of, serial};
use std::alloc::{AllocError, Global};
use std::process::Abort;
use std::sync::Wait;
use std::test::Fail;
use std::thread::Threads;

/// The words of a report's frames that were taken, and the answers of its calls, in their order.
fn words_and_answers(alloc: Global, report: &[u8]) -> Result<Vec<u8>, AllocError> {
    let mut all = Vec::new(alloc);
    for line in report.split(|byte| *byte == b'\n') {
        if line.starts_with(b"take ") {
            let word = line.rsplit(|byte| *byte == b' ').next();
            all.extend_from_slice(word.unwrap_or(line))?;
            all.push(b'\n')?;
        } else if line.starts_with(b"call ") {
            all.extend_from_slice(line)?;
            all.push(b'\n')?;
        }
    }
    Ok(all)
}

/// A name, a scenario, the words and answers of its serial run, and how its report ends.
type Case<'a> = (&'a str, Pieces<'a>, Pieces<'a>, &'a [u8]);

static CASES: [Case<'static>; 4] = [
    // 488 bytes go in one frame. A longer message goes in frames of 484, and a turn takes eight frames at most.
    (
        "messages of each number of frames",
        &[
            (
                "domain 0 nodes 1 pool 17\n0.0 create 1\n0.0 create 2\n0.0 msg_send 1 0:0:2 1 ",
                1,
            ),
            ("a1", 488),
            ("\n0.0 msg_recv 2 9000\n0.0 msg_send 1 0:0:2 1 ", 1),
            ("b2", 489),
            ("\n0.0 msg_recv 2 9000\n0.0 msg_send 1 0:0:2 1 ", 1),
            ("c3", 968),
            ("\n0.0 msg_recv 2 9000\n0.0 msg_send 1 0:0:2 1 ", 1),
            ("d4", 969),
            ("\n0.0 msg_recv 2 4\n0.0 msg_send 1 0:0:2 1 ", 1),
            ("e5", 8192),
            (
                "\n0.0 try 2 msg_recv 2 9000\n0.0 try 2 msg_recv 2 9000\n0.0 msg_send 1 0:0:2 1 ",
                1,
            ),
            ("f6", 8193),
            ("\n", 1),
        ],
        &[
            ("call 1 ok 1024\ncall 2 ok 1025\n", 1),
            ("call 3 ok\nqueued\ncall 4 ok 488 ", 1),
            ("a1", 488),
            ("\ncall 5 ok\npart\nqueued\ncall 6 ok 489 ", 1),
            ("b2", 489),
            ("\ncall 7 ok\npart\nqueued\ncall 8 ok 968 ", 1),
            ("c3", 968),
            (
                "\ncall 9 ok\npart\npart\nqueued\ncall 10 truncated 969 d4d4d4d4\ncall 11 ok\n",
                1,
            ),
            ("part\n", 16),
            ("call 12 empty\nqueued\ncall 13 ok 8192 ", 1),
            ("e5", 8192),
            ("\ncall 14 msg_size\n", 1),
        ],
        b"messages accepted 5 taken 5 dropped 0 queued 0 ring 0\nlane 0 0 free 17 ring 0 queue 0 lent 0\nend\n",
    ),
    // All frames of a message are put, or none.
    (
        "all frames are put or none",
        &[
            (
                "domain 0 nodes 1 pool 4\n0.0 create 1\n0.0 create 2\n0.0 msg_send 1 0:0:2 1 ",
                1,
            ),
            ("07", 1000),
            ("\n0.0 msg_send 1 0:0:2 1 ", 1),
            ("07", 1000),
            ("\n0.0 msg_send 1 0:0:2 1 ", 1),
            ("07", 1937),
            ("\n0.0 msg_recv 2 9000\n", 1),
        ],
        &[
            (
                "call 1 ok 1024\ncall 2 ok 1025\ncall 3 ok\npart\npart\nqueued\ncall 4 no_buffer\ncall 5 msg_size\ncall 6 ok 1000 ",
                1,
            ),
            ("07", 1000),
            ("\n", 1),
        ],
        b"messages accepted 1 taken 1 dropped 0 queued 0 ring 0\nlane 0 0 free 4 ring 0 queue 0 lent 0\nend\n",
    ),
    // The receiver of a message is deleted between its fragments, a request waits while a part grows, and a deletion drops messages.
    (
        "messages of several frames are dropped, and requested",
        &[
            (
                "domain 0 nodes 1 pool 17\n0.0 create 1\n0.0 create 2\n0.0 msg_send 1 0:0:2 1 ",
                1,
            ),
            ("e5", 8192),
            (
                "\n0.0 delete 2\n0.0 turn\n0.0 turn\n0.0 create 2\n0.0 r = msg_recv_i 2 9000\n0.0 msg_send 1 0:0:2 1 ",
                1,
            ),
            ("e6", 8192),
            ("\n0.0 test r\n0.0 wait r 9\n0.0 msg_send 1 0:0:2 1 ", 1),
            ("e7", 489),
            ("\n0.0 msg_send 1 0:0:2 1 ", 1),
            ("e8", 969),
            ("\n0.0 delete 2\n", 1),
        ],
        &[
            ("call 1 ok 1024\ncall 2 ok 1025\ncall 3 ok\n", 1),
            ("part\n", 8),
            ("call 4 ok 0\n", 1),
            ("part\n", 8),
            (
                "call 5 ok\nno_endpoint\ncall 6 ok\ncall 7 ok 1026\ncall 8 ok 0\ncall 9 ok\n",
                1,
            ),
            ("part\n", 8),
            ("call 10 pending\n", 1),
            ("part\n", 8),
            ("handed\ncall 11 done 8192 ", 1),
            ("e6", 8192),
            (
                "\ncall 12 ok\npart\nqueued\ncall 13 ok\npart\npart\nqueued\ncall 14 ok 2\n",
                1,
            ),
        ],
        b"messages accepted 4 taken 1 dropped 3 queued 0 ring 0\nlane 0 0 free 17 ring 0 queue 0 lent 0\nend\n",
    ),
    // A domain takes the fragments of two peers in one turn.
    (
        "two senders at once",
        &[
            (
                "domain 0 nodes 1 pool 2\ndomain 1 nodes 1 pool 2\ndomain 2 nodes 1 pool 2\nlink 0 1 size 4\nlink 0 2 size 4
0.0 create 1\n1.0 create 1\n2.0 create 1\n0.0 turn\n1.0 turn\n2.0 turn\n0.0 turn\n1.0 msg_send 1 0:0:1 1 ",
                1,
            ),
            ("11", 1000),
            ("\n2.0 msg_send 1 0:0:1 1 ", 1),
            ("22", 1000),
            ("\n0.0 msg_recv 1 9000\n0.0 msg_recv 1 9000\n", 1),
        ],
        &[
            (
                "call 1 ok 1024\ncall 2 ok\nacted\nacted\ncall 3 ok\npart\npart\nqueued\npart\npart\nqueued\ncall 4 ok 1000 ",
                1,
            ),
            ("11", 1000),
            ("\ncall 5 ok 1000 ", 1),
            ("22", 1000),
            (
                "\ncall 1 ok 1024\nacted\ncall 2 ok\ncall 3 ok\ncall 1 ok 1024\nacted\ncall 2 ok\ncall 3 ok\n",
                1,
            ),
        ],
        b"messages accepted 2 taken 2 dropped 0 queued 0 ring 0
lane 0 0 free 2 ring 0 queue 0 lent 0
lane 0 1 free 4 ring 0 queue 0 lent 0
lane 0 2 free 4 ring 0 queue 0 lent 0
lane 1 0 free 4 ring 0 queue 0 lent 0
lane 1 1 free 2 ring 0 queue 0 lent 0
lane 2 0 free 4 ring 0 queue 0 lent 0
lane 2 2 free 2 ring 0 queue 0 lent 0
end
",
    ),
];

/// Whether the report of a case has what it must, and is right.
fn is_reported<T: Threads + Wait + Sync>(
    rt: &T,
    alloc: Global,
    (_, text, due, end): Case<'_>,
) -> Result<bool, AllocError> {
    let text = joined(alloc, text)?;
    let (status, output) = outcome_of(rt, alloc, serial(&text))?;
    let report = output.written();
    let told = words_and_answers(alloc, report)?;
    let due = joined(alloc, due)?;
    Ok(
        status == 0
            && told.as_slice() == due.as_slice()
            && report.ends_with(end)
            && is_right(rt, alloc, report)?,
    )
}

#[test]
fn words_and_answers_of_large_items(rt: HostRuntime) -> Result<(), Fail> {
    for case in &CASES {
        let (name, _, _, _) = *case;
        assert!(rt; is_reported(&rt, rt.alloc(), *case)?, "{name}");
    }
    Ok(())
}

/// Packets over a link, each of which is received and released before the next is sent where there is no room for both.
static PACKETS: Pieces<'static> = &[
    (
        "domain 0 nodes 1 pool 2
domain 1 nodes 1 pool 2
link 0 1 size 32
0.0 create 1
1.0 create 2
0.0 a = lookup 1:0:2
0.0 wait a 4294967295
0.0 c = connect 1 1:0:2 packet
0.0 wait c 4294967295
0.0 open_send 1 packet
1.0 try 4294967295 open_recv 2 packet
0.0 try 4294967295 pkt_send 1 ",
        1,
    ),
    ("a1", 488),
    (
        "\n1.0 p = try 4294967295 pkt_recv 2\n1.0 release p\n0.0 try 4294967295 pkt_send 1 ",
        1,
    ),
    ("b2", 489),
    (
        "\n1.0 q = try 4294967295 pkt_recv 2\n1.0 release q\n0.0 try 4294967295 pkt_send 1 ",
        1,
    ),
    ("c3", 968),
    (
        "\n1.0 r = try 4294967295 pkt_recv 2\n1.0 release r\n0.0 try 4294967295 pkt_send 1 ",
        1,
    ),
    ("d4", 969),
    (
        "\n1.0 s = try 4294967295 pkt_recv 2\n1.0 release s\n0.0 try 4294967295 pkt_send 1 ",
        1,
    ),
    ("e5", 8192),
    (
        "\n1.0 t = try 4294967295 pkt_recv 2\n1.0 release t\n0.0 pkt_send 1 ",
        1,
    ),
    ("f6", 8193),
    ("\n0.0 close_send 1\n1.0 try 4294967295 close_recv 2\n", 1),
];

/// What the calls on packets answer, on one thread and on several.
static ANSWERS: Pieces<'static> = &[
    (
        "call 1 ok 1024
call 2 ok 0
call 3 done 1024
call 4 ok 1 1
call 5 done accepted
call 6 ok
call 7 ok
call 8 ok
call 9 ok
call 10 ok
call 11 ok
call 12 pkt_size
call 13 ok
call 1 ok 1024
call 2 ok
call 3 ok 488 ",
        1,
    ),
    ("a1", 488),
    ("\ncall 4 ok\ncall 5 ok 489 ", 1),
    ("b2", 489),
    ("\ncall 6 ok\ncall 7 ok 968 ", 1),
    ("c3", 968),
    ("\ncall 8 ok\ncall 9 ok 969 ", 1),
    ("d4", 969),
    ("\ncall 10 ok\ncall 11 ok 8192 ", 1),
    ("e5", 8192),
    ("\ncall 12 ok\ncall 13 ok 0\n", 1),
];

/// The words of the forms of `run`.
const FORMS: [&[&str]; 3] = [SERIAL, &["run"], &["run", "--bells"]];

/// Whether the calls on packets answer what they must, and the report is right.
fn are_received<T: Threads + Wait + Sync>(
    rt: &T,
    alloc: Global,
    words: &[&str],
) -> Result<bool, AllocError> {
    let text = joined(alloc, PACKETS)?;
    let given = Given {
        words,
        text: &text,
        ..EMPTY
    };
    let (status, output) = outcome_of(rt, alloc, given)?;
    let calls = lines_of(alloc, output.written(), &[b"call "])?;
    let due = joined(alloc, ANSWERS)?;
    Ok(status == 0 && calls.as_slice() == due.as_slice() && is_right(rt, alloc, output.written())?)
}

#[test]
fn packets_of_several_frames_over_a_link(rt: HostRuntime) -> Result<(), Fail> {
    for words in FORMS {
        assert!(rt; are_received(&rt, rt.alloc(), words)?);
    }
    Ok(())
}
