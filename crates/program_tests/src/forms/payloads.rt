use crate::forms::frame::frame;
use crate::forms::{comes_out, ends_with, serial};
use std::alloc::{AllocError, Global};
use std::process::Abort;
use std::sync::Wait;
use std::test::Fail;
use std::thread::Threads;

/// A text as pieces, each with how often it stands.
pub(super) type Pieces<'a> = &'a [(&'a str, usize)];

/// All before the 488 bytes of a message of priority 2.
const LONG_MESSAGE: &str = "00040000 01040000 00000000 f001 0000 4d01010200000000";

/// All before the 488 bytes of a packet of channel 1.
const LONG_PACKET: &str = "00040000 01040000 00000000 f001 0000 4d01070001000000";

/// All before the bytes of a message of 489 bytes.
const LONGER_MESSAGE: &str = "00040000 01040000 00000000 f101 0000 4d01010200000000";

fn extend(text: &mut Vec<u8>, pieces: Pieces<'_>) -> Result<(), AllocError> {
    for (piece, times) in pieces {
        for _ in 0..*times {
            text.extend_from_slice(piece.as_bytes())?;
        }
    }
    Ok(())
}

pub(super) fn joined(alloc: Global, pieces: Pieces<'_>) -> Result<Vec<u8>, AllocError> {
    let mut text = Vec::new(alloc);
    extend(&mut text, pieces)?;
    Ok(text)
}

/// Whether this status and this line come of a text.
fn is_told<T: Threads + Wait + Sync>(
    rt: &T,
    alloc: Global,
    text: &[u8],
    status: u8,
    line: Pieces<'_>,
) -> Result<bool, AllocError> {
    let due = joined(alloc, line)?;
    comes_out(rt, alloc, frame(text), status, &due)
}

/// The header's length, the payload, and the words of the line behind the first.
type Payload<'a> = (&'a str, &'a str, &'a str);

/// Whether this status and a line of these first words and its own come of a payload.
fn is_payload_told<'a, T: Threads + Wait + Sync>(
    rt: &T,
    alloc: Global,
    status: u8,
    first: &'a str,
    (len, payload, words): Payload<'a>,
) -> Result<bool, AllocError> {
    let text = joined(
        alloc,
        &[
            ("00040000 01040000 00000000", 1),
            (len, 1),
            ("0000", 1),
            (payload, 1),
        ],
    )?;
    is_told(
        rt,
        alloc,
        &text,
        status,
        &[(first, 1), (words, 1), ("\n", 1)],
    )
}

fn assert_payloads<'a, T: Threads + Wait + Sync + Abort>(
    rt: &T,
    alloc: Global,
    status: u8,
    first: &'a str,
    rows: &[Payload<'a>],
) -> Result<(), Fail> {
    for (i, row) in rows.iter().enumerate() {
        assert!(rt; is_payload_told(rt, alloc, status, first, *row)?, "row {i}");
    }
    Ok(())
}

/// Each letter, and both ends of each range.
static LETTERS: [Payload<'static>; 22] = [
    ("0800", "4d01 01 00 00000000", "msg 0 -"),
    ("0900", "4d01 01 03 00000000 ff", "msg 3 ff"),
    ("0800", "4d01 02 00 01000000", "connect 1 packet"),
    ("0800", "4d01 02 01 ffffffff", "connect 4294967295 scalar"),
    ("0800", "4d01 03 00 01020304", "accept 67305985"),
    ("0800", "4d01 04 01 05000000", "reject 5 no_endpoint"),
    ("0800", "4d01 04 02 05000000", "reject 5 connected"),
    ("0800", "4d01 04 03 05000000", "reject 5 busy"),
    ("0800", "4d01 05 00 06000000", "recv_open 6"),
    ("0800", "4d01 06 00 07000000", "send_open 7"),
    ("0800", "4d01 07 00 08000000", "packet 8 -"),
    ("0b00", "4d01 07 00 08000000 00ff7f", "packet 8 00ff7f"),
    ("0900", "4d01 08 01 09000000 80", "scalar 9 8 128"),
    ("0a00", "4d01 08 02 09000000 0102", "scalar 9 16 513"),
    (
        "0c00",
        "4d01 08 04 09000000 78563412",
        "scalar 9 32 305419896",
    ),
    (
        "1000",
        "4d01 08 08 ffffffff ffffffffffffffff",
        "scalar 4294967295 64 18446744073709551615",
    ),
    (
        "1000",
        "4d01 08 08 01000000 0000000000000000",
        "scalar 1 64 0",
    ),
    ("0800", "4d01 09 00 0a000000", "send_close 10"),
    ("0800", "4d01 0a 00 0b000000", "recv_close 11"),
    // Parts, by version 2.
    (
        "1100",
        "4d02 01 00 00000000 e901 e401 6161616161",
        "msg_part 0 489 484 6161616161",
    ),
    (
        "0d00",
        "4d02 01 03 00000000 0020 ff1f 07",
        "msg_part 3 8192 8191 07",
    ),
    (
        "0e00",
        "4d02 07 00 08000000 0200 0000 ff00",
        "packet_part 8 2 0 ff00",
    ),
];

#[test]
fn letters(rt: HostRuntime) -> Result<(), Fail> {
    assert_payloads(&rt, rt.alloc(), 0, "right 1024 1025 ", &LETTERS)
}

/// Each fault of a letter, and of two neighbours in the order the first.
static FAULTS_OF_LETTERS: [Payload<'static>; 55] = [
    ("0700", "00010100 000000", "12 payload_short"),
    ("0700", "4d010100 00000000", "12 payload_short"),
    ("0800", "4c020100 00000000", "16 magic"),
    ("0800", "4d000000 00000000", "17 version"),
    ("0800", "4d030000 00000000", "17 version"),
    ("0800", "4d0100ff 00000000", "18 kind"),
    ("0800", "4d010b00 01000000", "18 kind"),
    ("0800", "4d01ff00 01000000", "18 kind"),
    ("0800", "4d010104 01000000", "19 argument"),
    ("0800", "4d010202 00000000", "19 argument"),
    ("0800", "4d010301 01000000", "19 argument"),
    ("0800", "4d010400 01000000", "19 argument"),
    ("0800", "4d010404 01000000", "19 argument"),
    ("0800", "4d010501 01000000", "19 argument"),
    ("0800", "4d010601 01000000", "19 argument"),
    ("0800", "4d010701 01000000", "19 argument"),
    ("0800", "4d010800 01000000", "19 argument"),
    ("0b00", "4d010803 01000000 000000", "19 argument"),
    ("0800", "4d010901 01000000", "19 argument"),
    ("0800", "4d010a01 01000000", "19 argument"),
    ("0800", "4d010100 01000000", "20 channel"),
    ("0900", "4d010200 00000000 00", "20 channel"),
    ("0900", "4d010300 00000000 00", "20 channel"),
    ("0800", "4d010401 00000000", "20 channel"),
    ("0800", "4d010500 00000000", "20 channel"),
    ("0800", "4d010600 00000000", "20 channel"),
    ("0800", "4d010700 00000000", "20 channel"),
    ("0800", "4d010801 00000000", "20 channel"),
    ("0800", "4d010900 00000000", "20 channel"),
    ("0800", "4d010a00 00000000", "20 channel"),
    ("0900", "4d010200 01000000 00", "12 size"),
    ("0900", "4d010300 01000000 00", "12 size"),
    ("0900", "4d010401 01000000 00", "12 size"),
    ("0900", "4d010500 01000000 00", "12 size"),
    ("0900", "4d010600 01000000 00", "12 size"),
    ("0800", "4d010801 01000000", "12 size"),
    ("0a00", "4d010801 01000000 0000", "12 size"),
    ("0f00", "4d010808 01000000 00000000000000", "12 size"),
    ("0900", "4d010900 01000000 00", "12 size"),
    ("0900", "4d010a00 01000000 00", "12 size"),
    // Parts, by version 2: of messages and packets alone, of at least one byte, and within a whole of at most 8,192.
    ("0700", "4d020100 000000", "12 payload_short"),
    ("0800", "4d020000 00000000", "18 kind"),
    ("0d00", "4d020200 01000000 0100 0000 ff", "18 kind"),
    ("0d00", "4d020800 01000000 0100 0000 ff", "18 kind"),
    ("0d00", "4d020b00 01000000 0100 0000 ff", "18 kind"),
    ("0d00", "4d020104 00000000 0100 0000 ff", "19 argument"),
    ("0d00", "4d020701 01000000 0100 0000 ff", "19 argument"),
    ("0d00", "4d020100 01000000 0100 0000 ff", "20 channel"),
    ("0d00", "4d020700 00000000 0100 0000 ff", "20 channel"),
    ("0800", "4d020100 00000000", "12 size"),
    ("0c00", "4d020700 01000000 0100 0000", "12 size"),
    ("0d00", "4d020100 00000000 0000 0000 ff", "12 size"),
    ("0d00", "4d020100 00000000 0120 0000 ff", "12 size"),
    ("1100", "4d020100 00000000 e901 e501 6161616161", "12 size"),
    // The header's length is asked before the payload.
    ("0900", "00000000 00000000", "12 header_len"),
];

#[test]
fn faults_of_letters(rt: HostRuntime) -> Result<(), Fail> {
    assert_payloads(&rt, rt.alloc(), 1, "wrong ", &FAULTS_OF_LETTERS)
}

/// An announcement: the header's length, the field of the name, and what follows it; and the status and the line.
type Announcement<'a> = (&'a str, Pieces<'a>, &'a str, u8, Pieces<'a>);

static ANNOUNCEMENTS: [Announcement<'static>; 20] = [
    (
        "2800",
        &[("61", 1), ("00", 31)],
        "00040000 00000000",
        0,
        &[("right 1024 53 name create a 1024\n", 1)],
    ),
    (
        "2800",
        &[("61", 30), ("00", 2)],
        "ffffffff 01000000",
        0,
        &[
            ("right 1024 53 name destroy ", 1),
            ("a", 30),
            (" 4294967295\n", 1),
        ],
    ),
    (
        "2800",
        &[("61", 31), ("00", 1)],
        "00000000 00000000",
        0,
        &[("right 1024 53 name create ", 1), ("a", 31), (" 0\n", 1)],
    ),
    // The last byte of the field is no part of the name.
    (
        "2800",
        &[("61", 32)],
        "00040000 00000000",
        0,
        &[("right 1024 53 name create ", 1), ("a", 31), (" 1024\n", 1)],
    ),
    (
        "2800",
        &[("61", 31), ("07", 1)],
        "00040000 00000000",
        0,
        &[("right 1024 53 name create ", 1), ("a", 31), (" 1024\n", 1)],
    ),
    // What follows the first NUL may be any bytes; so may what follows the payload.
    (
        "2800",
        &[("20417e00", 1), ("1f", 28)],
        "00040000 01000000 ffff",
        0,
        &[("right 1024 53 name destroy  A~ 1024\n", 1)],
    ),
    (
        "2800",
        &[("00", 32)],
        "00040000 00000000",
        1,
        &[("wrong 16 ns_name\n", 1)],
    ),
    (
        "2800",
        &[("00", 1), ("61", 31)],
        "00040000 00000000",
        1,
        &[("wrong 16 ns_name\n", 1)],
    ),
    (
        "2800",
        &[("61", 30), ("1f", 1), ("00", 1)],
        "00040000 00000000",
        1,
        &[("wrong 16 ns_name\n", 1)],
    ),
    (
        "2800",
        &[("7f", 1), ("00", 31)],
        "00040000 00000000",
        1,
        &[("wrong 16 ns_name\n", 1)],
    ),
    (
        "2800",
        &[("61", 1), ("00", 31)],
        "00040000 02000000",
        1,
        &[("wrong 52 ns_flags\n", 1)],
    ),
    (
        "2800",
        &[("61", 1), ("00", 31)],
        "00040000 00000001",
        1,
        &[("wrong 52 ns_flags\n", 1)],
    ),
    // Of two faults the first.
    (
        "2800",
        &[("00", 32)],
        "00040000 02000000",
        1,
        &[("wrong 52 ns_flags\n", 1)],
    ),
    (
        "2900",
        &[("61", 1), ("00", 31)],
        "00040000 02000000 00",
        1,
        &[("wrong 12 ns_size\n", 1)],
    ),
    (
        "2800",
        &[("00", 32)],
        "00040000 020000",
        1,
        &[("wrong 12 header_len\n", 1)],
    ),
    // 39, 40 and 41 bytes.
    (
        "2700",
        &[("61", 1), ("00", 31)],
        "00040000 000000",
        1,
        &[("wrong 12 ns_size\n", 1)],
    ),
    (
        "2700",
        &[("61", 1), ("00", 31)],
        "00040000 00000000",
        1,
        &[("wrong 12 ns_size\n", 1)],
    ),
    (
        "2900",
        &[("61", 1), ("00", 31)],
        "00040000 00000000 00",
        1,
        &[("wrong 12 ns_size\n", 1)],
    ),
    // A sound letter to the name service, and nothing at all.
    (
        "0a00",
        &[("4d01010100000000", 1)],
        "6869",
        1,
        &[("wrong 12 ns_size\n", 1)],
    ),
    ("0000", &[("00", 0)], "", 1, &[("wrong 12 ns_size\n", 1)]),
];

fn is_announcement_told<T: Threads + Wait + Sync>(
    rt: &T,
    alloc: Global,
    (len, name, rest, status, line): Announcement<'_>,
) -> Result<bool, AllocError> {
    let header = [("00040000 35000000 00000000", 1), (len, 1), ("0000", 1)];
    let mut text = joined(alloc, &header)?;
    extend(&mut text, name)?;
    text.extend_from_slice(rest.as_bytes())?;
    is_told(rt, alloc, &text, status, line)
}

#[test]
fn announcements(rt: HostRuntime) -> Result<(), Fail> {
    for (i, row) in ANNOUNCEMENTS.iter().enumerate() {
        assert!(rt; is_announcement_told(&rt, rt.alloc(), *row)?, "row {i}");
    }
    Ok(())
}

/// A text, and the status and the line that come of it.
type Frame<'a> = (Pieces<'a>, u8, Pieces<'a>);

/// Frames of the most bytes, and of one more.
static LONGEST_FRAMES: [Frame<'static>; 9] = [
    (
        &[(LONG_MESSAGE, 1), ("a5", 488)],
        0,
        &[("right 1024 1025 msg 2 ", 1), ("a5", 488), ("\n", 1)],
    ),
    (
        &[(LONG_PACKET, 1), ("00", 488)],
        0,
        &[("right 1024 1025 packet 1 ", 1), ("00", 488), ("\n", 1)],
    ),
    (
        &[(LONG_MESSAGE, 1), ("a5", 487)],
        1,
        &[("wrong 12 header_len\n", 1)],
    ),
    (
        &[(LONG_MESSAGE, 1), ("a5", 489)],
        1,
        &[("wrong 513 frame_long\n", 1)],
    ),
    (
        &[(LONGER_MESSAGE, 1), ("a5", 488)],
        1,
        &[("wrong 12 header_len\n", 1)],
    ),
    (
        &[(LONGER_MESSAGE, 1), ("a5", 489)],
        1,
        &[("wrong 513 frame_long\n", 1)],
    ),
    (&[("00", 512)], 1, &[("wrong 12 payload_short\n", 1)]),
    (&[("00", 513)], 1, &[("wrong 513 frame_long\n", 1)]),
    // Too long, and then its header's length.
    (&[("ff", 513)], 1, &[("wrong 513 frame_long\n", 1)]),
];

fn is_frame_told<T: Threads + Wait + Sync>(
    rt: &T,
    alloc: Global,
    (pieces, status, line): Frame<'_>,
) -> Result<bool, AllocError> {
    let text = joined(alloc, pieces)?;
    is_told(rt, alloc, &text, status, line)
}

#[test]
fn longest_frames(rt: HostRuntime) -> Result<(), Fail> {
    for (i, row) in LONGEST_FRAMES.iter().enumerate() {
        assert!(rt; is_frame_told(&rt, rt.alloc(), *row)?, "row {i}");
    }
    Ok(())
}

/// A scenario that sends a message of this many bytes.
fn message_of(alloc: Global, size: usize) -> Result<Vec<u8>, AllocError> {
    let mut text = Vec::from_slice(
        alloc,
        b"domain 0 nodes 1 pool 1\n0.0 create 0\n0.0 msg_send 0 0:0:0 1 ",
    )?;
    for _ in 0..size {
        text.extend_from_slice(b"00")?;
    }
    text.push(b'\n')?;
    Ok(text)
}

/// The end of the report of a message that is too long for its lane.
const TOO_LONG_A_MESSAGE: &[u8] = b"
idle 1
call 2 msg_size
messages accepted 0 taken 0 dropped 0 queued 0 ring 0
lane 0 0 free 1 ring 0 queue 0 lent 0
end
";

/// A message of 9,000 bytes is a scenario's, though no call sends it; one of 9,001 is in none.
#[test]
fn longest_message(rt: HostRuntime) -> Result<(), Fail> {
    let alloc = rt.alloc();
    assert!(rt; ends_with(&rt, alloc, &message_of(alloc, 9000)?, TOO_LONG_A_MESSAGE)?);
    let longer = message_of(alloc, 9001)?;
    assert!(rt; comes_out(&rt, alloc, serial(&longer), 3, b"refused 3 bytes\n")?);
    Ok(())
}
