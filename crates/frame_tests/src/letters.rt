ghost use Rattle.std.specs.Prelude.{◌≤◌, length};
ghost use Rattle.mc_base.specs.Letter.{FitsFrame, saying_of};

use crate::rows::assert_rows;
use bridge_frame::{letters_read_back, no_payload_has_two_letters, read_letter, write_letter};
use mc_base::{Bits, Kind, Letter, LetterFault, Priority, Reason};
use std::alloc::Global;
use std::process::Abort;

static MSG: [u8; 10] = [0x4d, 1, 1, 3, 0, 0, 0, 0, 0x68, 0x69];

static PACKET: [u8; 10] = [0x4d, 1, 7, 0, 7, 0, 0, 0, 0x68, 0x69];

static RECV_OPEN: [u8; 8] = [0x4d, 1, 5, 0, 7, 0, 0, 0];

static SEND_OPEN: [u8; 8] = [0x4d, 1, 6, 0, 7, 0, 0, 0];

static SEND_CLOSE: [u8; 8] = [0x4d, 1, 9, 0, 7, 0, 0, 0];

static RECV_CLOSE: [u8; 8] = [0x4d, 1, 10, 0, 7, 0, 0, 0];

const CONNECT: [u8; 8] = [0x4d, 1, 2, 1, 4, 3, 2, 1];

const ACCEPT: [u8; 8] = [0x4d, 1, 3, 0, 1, 0, 0, 0];

const REJECT: [u8; 8] = [0x4d, 1, 4, 3, 0xff, 0xff, 0xff, 0xff];

const SCALAR_16: [u8; 10] = [0x4d, 1, 8, 2, 7, 0, 0, 0, 0x34, 0x12];

const SCALAR_64: [u8; 16] = [
    0x4d, 1, 8, 8, 7, 0, 0, 0, 0xff, 0xff, 0xff, 0xff, 0xff, 0xff, 0xff, 0xff,
];

/// The last 5 bytes of 489, and the first of 8,192.
const MSG_PART: [u8; 17] = [
    0x4d, 2, 1, 0, 0, 0, 0, 0, 0xe9, 1, 0xe4, 1, 0x61, 0x61, 0x61, 0x61, 0x61,
];

const PACKET_PART: [u8; 13] = [0x4d, 2, 7, 0, 7, 0, 0, 0, 0, 0x20, 0, 0, 0x68];

const LETTERS: [(&[u8], &str); 19] = [
    (
        &[0x4d, 1, 1, 3, 0, 0, 0, 0, 0x68, 0x69],
        "Msg { priority: Priority { number: 3 }, bytes: [104, 105] }",
    ),
    (
        &[0x4d, 1, 1, 0, 0, 0, 0, 0],
        "Msg { priority: Priority { number: 0 }, bytes: [] }",
    ),
    (&CONNECT, "Connect { channel: 16909060, kind: Scalar }"),
    (
        &[0x4d, 1, 2, 0, 1, 0, 0, 0],
        "Connect { channel: 1, kind: Packet }",
    ),
    (&ACCEPT, "Accept { channel: 1 }"),
    (&REJECT, "Reject { channel: 4294967295, reason: Busy }"),
    (
        &[0x4d, 1, 4, 1, 1, 0, 0, 0],
        "Reject { channel: 1, reason: NoEndpoint }",
    ),
    (&[0x4d, 1, 5, 0, 7, 0, 0, 0], "RecvOpen { channel: 7 }"),
    (&[0x4d, 1, 6, 0, 7, 0, 0, 0], "SendOpen { channel: 7 }"),
    (
        &[0x4d, 1, 7, 0, 7, 0, 0, 0, 0x68],
        "Packet { channel: 7, bytes: [104] }",
    ),
    (
        &[0x4d, 1, 8, 1, 7, 0, 0, 0, 0xff],
        "Scalar { channel: 7, bits: B8, value: 255 }",
    ),
    (&SCALAR_16, "Scalar { channel: 7, bits: B16, value: 4660 }"),
    (
        &[0x4d, 1, 8, 4, 7, 0, 0, 0, 1, 0, 0, 0x80],
        "Scalar { channel: 7, bits: B32, value: 2147483649 }",
    ),
    (
        &SCALAR_64,
        "Scalar { channel: 7, bits: B64, value: 18446744073709551615 }",
    ),
    (&[0x4d, 1, 9, 0, 7, 0, 0, 0], "SendClose { channel: 7 }"),
    (&[0x4d, 1, 10, 0, 7, 0, 0, 0], "RecvClose { channel: 7 }"),
    (
        &MSG_PART,
        "MsgPart { priority: Priority { number: 0 }, total: 489, offset: 484, bytes: [97, 97, 97, 97, 97] }",
    ),
    (
        &PACKET_PART,
        "PacketPart { channel: 7, total: 8192, offset: 0, bytes: [104] }",
    ),
    (
        &[0x4d, 2, 1, 3, 0, 0, 0, 0, 1, 0, 0, 0, 0x68],
        "MsgPart { priority: Priority { number: 3 }, total: 1, offset: 0, bytes: [104] }",
    ),
];

/// Contents of a part of a message, and whether they break the rules on its two numbers and its bytes.
const CONTENTS: [(&[u8], bool); 8] = [
    (&[], true),
    (&[1, 0, 0, 0], true),
    (&[1, 0, 0, 0, 0x68], false),
    (&[0, 0, 0, 0, 0x68], true),
    (&[1, 0, 1, 0, 0x68], true),
    (&[2, 0, 1, 0, 0x68], false),
    (&[1, 0x20, 0, 0, 0x68], true),
    (&[0, 0x20, 0xff, 0x1f, 0x68], false),
];

/// The first four bytes, the channel's lowest, the length of the content, and the first fault.
type Row = ([u8; 4], u8, u16, Option<LetterFault>);

const FAULTS: [Row; 53] = [
    ([0x4c, 1, 1, 0], 0, 0, Some(LetterFault::Magic)),
    ([0x4c, 2, 1, 0], 0, 0, Some(LetterFault::Magic)),
    ([0x4d, 0, 1, 0], 0, 0, Some(LetterFault::Version)),
    ([0x4d, 3, 0, 0], 0, 0, Some(LetterFault::Version)),
    ([0x4d, 2, 0, 0], 0, 0, Some(LetterFault::Kind)),
    ([0x4d, 2, 2, 2], 1, 0, Some(LetterFault::Kind)),
    ([0x4d, 2, 8, 1], 1, 1, Some(LetterFault::Kind)),
    ([0x4d, 2, 1, 4], 1, 0, Some(LetterFault::Argument)),
    ([0x4d, 2, 7, 1], 0, 0, Some(LetterFault::Argument)),
    ([0x4d, 2, 1, 3], 1, 0, Some(LetterFault::Channel)),
    ([0x4d, 2, 7, 0], 0, 0, Some(LetterFault::Channel)),
    ([0x4d, 2, 1, 3], 0, 5, Some(LetterFault::Size)),
    ([0x4d, 2, 7, 0], 1, 5, Some(LetterFault::Size)),
    ([0x4d, 1, 0, 0], 1, 0, Some(LetterFault::Kind)),
    ([0x4d, 1, 11, 0], 1, 0, Some(LetterFault::Kind)),
    ([0x4d, 1, 255, 9], 1, 0, Some(LetterFault::Kind)),
    ([0x4d, 1, 1, 4], 0, 0, Some(LetterFault::Argument)),
    ([0x4d, 1, 1, 4], 1, 0, Some(LetterFault::Argument)),
    ([0x4d, 1, 2, 2], 1, 0, Some(LetterFault::Argument)),
    ([0x4d, 1, 3, 1], 1, 0, Some(LetterFault::Argument)),
    ([0x4d, 1, 4, 0], 1, 0, Some(LetterFault::Argument)),
    ([0x4d, 1, 4, 4], 1, 0, Some(LetterFault::Argument)),
    ([0x4d, 1, 5, 1], 1, 0, Some(LetterFault::Argument)),
    ([0x4d, 1, 6, 1], 1, 0, Some(LetterFault::Argument)),
    ([0x4d, 1, 7, 1], 1, 0, Some(LetterFault::Argument)),
    ([0x4d, 1, 8, 0], 1, 0, Some(LetterFault::Argument)),
    ([0x4d, 1, 8, 3], 1, 3, Some(LetterFault::Argument)),
    ([0x4d, 1, 8, 16], 0, 16, Some(LetterFault::Argument)),
    ([0x4d, 1, 9, 1], 1, 0, Some(LetterFault::Argument)),
    ([0x4d, 1, 10, 1], 1, 0, Some(LetterFault::Argument)),
    ([0x4d, 1, 1, 0], 1, 0, Some(LetterFault::Channel)),
    ([0x4d, 1, 1, 0], 1, 489, Some(LetterFault::Channel)),
    ([0x4d, 1, 2, 0], 0, 1, Some(LetterFault::Channel)),
    ([0x4d, 1, 3, 0], 0, 0, Some(LetterFault::Channel)),
    ([0x4d, 1, 4, 1], 0, 0, Some(LetterFault::Channel)),
    ([0x4d, 1, 5, 0], 0, 0, Some(LetterFault::Channel)),
    ([0x4d, 1, 6, 0], 0, 0, Some(LetterFault::Channel)),
    ([0x4d, 1, 7, 0], 0, 489, Some(LetterFault::Channel)),
    ([0x4d, 1, 8, 1], 0, 1, Some(LetterFault::Channel)),
    ([0x4d, 1, 9, 0], 0, 0, Some(LetterFault::Channel)),
    ([0x4d, 1, 10, 0], 0, 0, Some(LetterFault::Channel)),
    ([0x4d, 1, 1, 0], 0, 488, None),
    ([0x4d, 1, 1, 0], 0, 489, Some(LetterFault::Size)),
    ([0x4d, 1, 2, 0], 1, 1, Some(LetterFault::Size)),
    ([0x4d, 1, 3, 0], 1, 1, Some(LetterFault::Size)),
    ([0x4d, 1, 4, 3], 1, 1, Some(LetterFault::Size)),
    ([0x4d, 1, 7, 0], 1, 488, None),
    ([0x4d, 1, 7, 0], 1, 489, Some(LetterFault::Size)),
    ([0x4d, 1, 8, 1], 1, 0, Some(LetterFault::Size)),
    ([0x4d, 1, 8, 2], 1, 1, Some(LetterFault::Size)),
    ([0x4d, 1, 8, 4], 1, 3, Some(LetterFault::Size)),
    ([0x4d, 1, 8, 8], 1, 9, Some(LetterFault::Size)),
    ([0x4d, 1, 10, 0], 1, 1, Some(LetterFault::Size)),
];

/// The letter is written as these bytes, and the rest stays.
fn is_written(letter: &Letter<'_>, bytes: &[u8]) -> bool
    requires lawful { FitsFrame (saying_of letter.now) }
    requires short { length bytes.now ≤ 496 }
{
    let mut out = [0xee; 500];
    let len = write_letter(letter, &mut out);
    let (written, rest) = out.split_at(bytes.len());
    len == bytes.len() && written == bytes && rest.iter().all(|b| *b == 0xee)
}

#[test]
fn each_letter_is_written(rt: HostRuntime) {
    let (Some(priority), Some(best)) = (Priority::new(3), Priority::new(0)) else {
        unreachable!()
    };
    let bytes = b"hi".as_slice();
    let channel = 7;
    let msg = Letter::Msg { priority, bytes };
    let connect = Letter::Connect {
        channel: 0x0102_0304,
        kind: Kind::Scalar,
    };
    let reject = Letter::Reject {
        channel: 0xffff_ffff,
        reason: Reason::Busy,
    };
    let packet = Letter::Packet { channel, bytes };
    let scalar_16 = Letter::Scalar {
        channel,
        bits: Bits::B16,
        value: 0x1234,
    };
    let scalar_64 = Letter::Scalar {
        channel,
        bits: Bits::B64,
        value: u64::MAX,
    };
    let msg_part = Letter::MsgPart {
        priority: best,
        total: 489,
        offset: 484,
        bytes: b"aaaaa",
    };
    let packet_part = Letter::PacketPart {
        channel,
        total: 8192,
        offset: 0,
        bytes: b"h",
    };
    let rows = [
        is_written(&msg_part, &MSG_PART),
        is_written(&packet_part, &PACKET_PART),
        is_written(&msg, &MSG),
        is_written(&connect, &CONNECT),
        is_written(&Letter::Accept { channel: 1 }, &ACCEPT),
        is_written(&reject, &REJECT),
        is_written(&Letter::RecvOpen { channel }, &RECV_OPEN),
        is_written(&Letter::SendOpen { channel }, &SEND_OPEN),
        is_written(&packet, &PACKET),
        is_written(&scalar_16, &SCALAR_16),
        is_written(&scalar_64, &SCALAR_64),
        is_written(&Letter::SendClose { channel }, &SEND_CLOSE),
        is_written(&Letter::RecvClose { channel }, &RECV_CLOSE),
    ];
    assert_rows(&rt, &rows);
    letters_read_back();
    no_payload_has_two_letters();
}

/// Whether the letter of these bytes is shown as this text.
fn is_read_as(alloc: Global, bytes: &[u8], text: &str) -> bool {
    let Ok(letter) = read_letter(bytes) else {
        return false;
    };
    match format!(in alloc; "{letter:?}") {
        Ok(shown) => shown.as_str() == text,
        Err(_) => false,
    }
}

fn assert_read(rt: &impl Abort, alloc: Global, rows: &[(&[u8], &str)]) {
    for (bytes, text) in rows {
        assert!(rt; is_read_as(alloc, bytes, text), "{text}");
    }
}

#[test]
fn each_letter_is_read(rt: HostRuntime) {
    assert_read(&rt, rt.alloc(), &LETTERS);
}

fn fault_of(payload: &[u8]) -> Option<LetterFault> {
    match read_letter(payload) {
        Ok(_) => None,
        Err(fault) => Some(fault),
    }
}

/// The fault of a payload of these first four bytes, this lowest byte of the channel, and so many zeros as content.
fn fault_at(front: [u8; 4], channel: u8, content: usize) -> Option<LetterFault>
    requires { content ≤ 489 }
{
    let [magic, version, kind, argument] = front;
    let mut payload = [0; 497];
    payload[0] = magic;
    payload[1] = version;
    payload[2] = kind;
    payload[3] = argument;
    payload[4] = channel;
    fault_of(&payload[..8 + content])
}

/// Whether a part of a message with this content has a fault, which is that of its size then.
fn breaks_size(content: &[u8]) -> bool {
    let mut payload = [0; 16];
    payload[..4].copy_from_slice(&[0x4d, 2, 1, 0]);
    let count = content.len().min(8);
    payload[8..8 + count].copy_from_slice(&content[..count]);
    fault_of(&payload[..8 + count]) == Some(LetterFault::Size)
}

#[test]
fn parts_lie_within_their_whole(rt: HostRuntime) {
    for (i, (content, breaks)) in CONTENTS.iter().enumerate() {
        assert!(rt; breaks_size(content) == *breaks, "row {i}");
    }
}

fn assert_faults(rt: &impl Abort, rows: &[Row]) {
    for (i, (front, channel, content, fault)) in rows.iter().enumerate() {
        let content = usize::from(*content).min(489);
        assert!(rt; fault_at(*front, *channel, content) == *fault, "row {i}");
    }
}

#[test]
fn first_faults_are_told(rt: HostRuntime) {
    assert_faults(&rt, &FAULTS);
    for size in 0..8 {
        let (short, _) = ACCEPT.split_at(size);
        let due = Some(LetterFault::PayloadShort);
        assert!(rt; fault_of(short) == due, "{size} bytes");
    }
}
