use crate::forms::{EMPTY, Given, assert_limits, assert_lines, comes_out};
use std::alloc::Global;
use std::process::Abort;
use std::sync::Wait;
use std::test::Fail;
use std::thread::Threads;

/// A message of two bytes.
const MESSAGE: &[u8] = b"0004000001040000000000000a0000004d010101000000006869";

const MESSAGE_LINE: &str = "right 1024 1025 msg 1 6869\n";

pub const FRAME: &[&str] = &["frame"];

/// The form `frame` on a text, with streams that fail nowhere.
pub fn frame(text: &[u8]) -> Given<'_> {
    Given {
        words: FRAME,
        text,
        ..EMPTY
    }
}

/// A text, and the status and the line that come of it.
type Told<'a> = (&'a [u8], u8, &'a str);

/// Asserts the status and the line of each text.
fn assert_told<T: Threads + Wait + Sync + Abort>(
    rt: &T,
    alloc: Global,
    rows: &[Told<'_>],
) -> Result<(), Fail> {
    for (i, (text, status, line)) in rows.iter().enumerate() {
        assert!(rt;
            comes_out(rt, alloc, frame(*text), *status, line.as_bytes())?,
            "row {i}"
        );
    }
    Ok(())
}

/// Frames whose lines are worked out by hand from the layouts.
static WORKED: [Told<'static>; 8] = [
    (MESSAGE, 0, MESSAGE_LINE),
    // Bytes after the payload.
    (
        b"0004000001040000000000000a0000004d01010100000000686900000000",
        0,
        MESSAGE_LINE,
    ),
    // A header's length of 15.
    (
        b"0004000001040000000000000f0000004d01010100000000686900000000",
        1,
        "wrong 12 header_len\n",
    ),
    // An announcement.
    (
        b"00040000350000000000000028000000 6d636170693a313a303a35
         000000000000000000000000000000000000000000 0004000000000000",
        0,
        "right 1024 53 name create mcapi:1:0:5 1024\n",
    ),
    (
        b"0004000001040000000000000a0000",
        1,
        "wrong 15 frame_short\n",
    ),
    (
        b"00040000010400000000000000000000",
        1,
        "wrong 12 payload_short\n",
    ),
    // A scalar of 16 bits with one byte.
    (
        b"00040000000400000000000009000000 4d01080201000000 00",
        1,
        "wrong 12 size\n",
    ),
    // Digits of either case, reserved, flags and what follows the payload are no matter.
    (
        b"FfFfFfFf 00000000 fFfFfFfF 0800 AbCd 4D01010300000000 eE",
        0,
        "right 4294967295 0 msg 3 -\n",
    ),
];

#[test]
fn worked_frames(rt: HostRuntime) -> Result<(), Fail> {
    assert_told(&rt, rt.alloc(), &WORKED)
}

/// Texts that spell bytes or none, whatever the bytes mean.
static HEXADECIMAL: [Told<'static>; 19] = [
    (b"", 1, "wrong 0 frame_short\n"),
    (b" \t\r\n", 1, "wrong 0 frame_short\n"),
    (b"0", 1, "wrong 1 hex\n"),
    (b"0\n", 1, "wrong 2 hex\n"),
    (b"0g", 1, "wrong 1 hex\n"),
    (b"g", 1, "wrong 0 hex\n"),
    // A byte that is no digit comes before an odd count, wherever it stands.
    (b"012x", 1, "wrong 3 hex\n"),
    (b"0 1 2 \n;", 1, "wrong 7 hex\n"),
    (b"0x00", 1, "wrong 1 hex\n"),
    // Blanks stand anywhere, also between the digits of a byte.
    (b"0 0\t0\r0\n", 1, "wrong 2 frame_short\n"),
    // The neighbours of the digits.
    (b"/", 1, "wrong 0 hex\n"),
    (b":", 1, "wrong 0 hex\n"),
    (b"@", 1, "wrong 0 hex\n"),
    (b"G", 1, "wrong 0 hex\n"),
    (b"`", 1, "wrong 0 hex\n"),
    (b"\x0b", 1, "wrong 0 hex\n"),
    (b"\x0c", 1, "wrong 0 hex\n"),
    (b"00 \x00", 1, "wrong 3 hex\n"),
    (b"09 af AF", 1, "wrong 3 frame_short\n"),
];

#[test]
fn hexadecimal_texts(rt: HostRuntime) -> Result<(), Fail> {
    assert_told(&rt, rt.alloc(), &HEXADECIMAL)
}

/// A byte and how often it stands, and the status and the line that come of it.
static LIMITS: [((u8, usize), u8, &str); 4] = [
    ((b'7', 8_388_608), 1, "wrong 4194304 frame_long\n"),
    ((b'7', 8_388_607), 1, "wrong 8388607 hex\n"),
    ((b' ', 8_388_608), 1, "wrong 0 frame_short\n"),
    ((b'7', 8_388_609), 7, ""),
];

/// Inputs of the most bytes and of one more. The place of a frame that is too long is the number of its bytes.
#[test]
fn limit_of_the_text(rt: HostRuntime) -> Result<(), Fail> {
    assert_limits(&rt, rt.alloc(), FRAME, &LIMITS)
}

/// A frame that is sound, and a text that spells none.
const RIGHT: Given<'static> = Given {
    words: FRAME,
    text: MESSAGE,
    ..EMPTY
};

const WRONG: Given<'static> = Given {
    words: FRAME,
    text: b"0g",
    ..EMPTY
};

/// What a stream that fails leaves: the status, and the first so many bytes of what was due.
static CUTS: [(Given<'static>, u8, &str); 8] = [
    (
        Given {
            failing_read: 0,
            ..RIGHT
        },
        4,
        "",
    ),
    (
        Given {
            failing_read: 1,
            ..WRONG
        },
        4,
        "",
    ),
    (
        Given {
            failing_write: 0,
            ..RIGHT
        },
        5,
        "",
    ),
    (
        Given {
            failing_write: 11,
            step: 1,
            ..WRONG
        },
        5,
        "wrong 1 hex",
    ),
    (Given { room: 27, ..RIGHT }, 0, MESSAGE_LINE),
    (Given { room: 26, ..RIGHT }, 5, "right 1024 1025 msg 1 6869"),
    (Given { room: 12, ..WRONG }, 1, "wrong 1 hex\n"),
    (Given { room: 11, ..WRONG }, 5, "wrong 1 hex"),
];

#[test]
fn streams_that_fail(rt: HostRuntime) -> Result<(), Fail> {
    assert_lines(&rt, rt.alloc(), &CUTS)
}
