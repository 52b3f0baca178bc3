use crate::rows::assert_rows;
use arrayvec::ArrayVec;
use mc_base::{Fault, FrameFault, LetterFault, Ns, NsFault};
use name_service::{
    announcements_read_back, fault_of, is_legal, no_payload_has_two_announcements, read_ns,
    write_ns,
};
use rpmsg_frame::encode_into;
use std::process::Abort;

/// Creates "mcapi:1:0:5" at 1024.
const CREATE: [u8; 40] = [
    0x6d, 0x63, 0x61, 0x70, 0x69, 0x3a, 0x31, 0x3a, 0x30, 0x3a, 0x35, 0, 0, 0, 0, 0, 0, 0, 0, 0, 0,
    0, 0, 0, 0, 0, 0, 0, 0, 0, 0, 0, 0, 4, 0, 0, 0, 0, 0, 0,
];

/// The first byte of a name and how many of it, the flags, and the first fault.
type Named = (u8, usize, u8, Option<NsFault>);

const NAMES: [Named; 12] = [
    (0x61, 0, 0, Some(NsFault::NsName)),
    (0x61, 1, 0, None),
    (0x61, 30, 1, None),
    (0x61, 31, 1, None),
    (0x61, 32, 1, None),
    (0x1f, 1, 0, Some(NsFault::NsName)),
    (0x20, 1, 0, None),
    (0x7e, 1, 0, None),
    (0x7f, 1, 0, Some(NsFault::NsName)),
    (0x61, 1, 2, Some(NsFault::NsFlags)),
    (0x61, 0, 2, Some(NsFault::NsFlags)),
    (0x7f, 32, 255, Some(NsFault::NsFlags)),
];

fn name_of(bytes: &[u8]) -> Option<ArrayVec<u8, 31>> {
    let mut name = ArrayVec::new();
    match name.try_extend_from_slice(bytes) {
        Ok(()) => Some(name),
        Err(_) => None,
    }
}

/// An announcement with these flags, whose name's field begins with this byte, so many times.
fn payload(byte: u8, count: usize, flags: u8) -> [u8; 40] {
    let mut payload = [0; 40];
    for b in payload.iter_mut().take(count.min(32)) {
        *b = byte;
    }
    payload[36] = flags;
    payload
}

fn ns_fault(payload: &[u8]) -> Option<NsFault> {
    match read_ns(payload) {
        Ok(_) => None,
        Err(fault) => Some(fault),
    }
}

/// The first fault of the frame that carries this payload, of at most 496 bytes, to this address.
fn fault_to(dst: u32, payload: &[u8]) -> Option<Fault> {
    if payload.len() > 496 {
        return None;
    }
    let mut frame = [0; 512];
    let len = encode_into(1024, dst, payload, &mut frame);
    let (frame, _) = frame.split_at(len);
    fault_of(frame)
}

/// Whether these bytes are read as this announcement.
fn is_read(bytes: &[u8], name: &[u8], addr: u32, create: bool) -> bool {
    match read_ns(bytes) {
        Ok(ns) => ns.name.as_slice() == name && ns.addr == addr && ns.create == create,
        Err(_) => false,
    }
}

#[test]
fn announcements_are_read(rt: HostRuntime) {
    // A NUL ends a name, and any bytes may stand after it.
    let mut ended = CREATE;
    ended[12..32].fill(0xff);
    // A name of 31 bytes, and byte 31 is no part of it.
    let full = payload(0x7e, 32, 1);
    let rows = [
        is_read(&CREATE, b"mcapi:1:0:5", 1024, true),
        is_read(&ended, b"mcapi:1:0:5", 1024, true),
        is_read(&full, &[0x7e; 31], 0, false),
        is_read(&payload(0x20, 1, 0), b" ", 0, true),
    ];
    assert_rows(&rt, &rows);
}

/// The announcement is written as these bytes, and the rest stays.
fn is_written(name: &[u8], addr: u32, create: bool, bytes: &[u8; 40]) -> bool {
    let Some(name) = name_of(name) else {
        return false;
    };
    if !is_legal(name.as_slice()) {
        return false;
    }
    let ns = Ns { name, addr, create };
    let mut out = [0xee; 42];
    write_ns(&ns, &mut out);
    let (written, rest) = out.split_at(40);
    written == bytes.as_slice() && rest.iter().all(|b| *b == 0xee)
}

#[test]
fn an_announcement_is_written(rt: HostRuntime) {
    let mut longest = payload(0x7e, 31, 1);
    longest[32] = 4;
    longest[33] = 3;
    longest[34] = 2;
    longest[35] = 1;
    let rows = [
        is_written(b"mcapi:1:0:5", 1024, true, &CREATE),
        is_written(&[0x7e; 31], 0x0102_0304, false, &longest),
    ];
    assert_rows(&rt, &rows);
    announcements_read_back();
    no_payload_has_two_announcements();
}

/// Whether this is the first fault of the payload, and of the frame that carries it.
fn is_fault(payload: &[u8], fault: Option<NsFault>) -> bool {
    ns_fault(payload) == fault && fault_to(53, payload) == fault.map(Fault::Ns)
}

fn assert_faults(rt: &impl Abort, rows: &[Named]) {
    for (i, (byte, count, flags, fault)) in rows.iter().enumerate() {
        let payload = payload(*byte, *count, *flags);
        assert!(rt; is_fault(&payload, *fault), "row {i}");
    }
}

#[test]
fn first_faults_are_told(rt: HostRuntime) {
    assert_faults(&rt, &NAMES);
    let mut flagged = CREATE;
    flagged[39] = 1;
    let rows = [
        ns_fault(&flagged) == Some(NsFault::NsFlags),
        ns_fault(&CREATE[..39]) == Some(NsFault::NsSize),
        ns_fault(&[0xff; 41]) == Some(NsFault::NsSize),
        ns_fault(&[]) == Some(NsFault::NsSize),
    ];
    assert_rows(&rt, &rows);
}

/// "hi" with priority 1.
static HI: [u8; 10] = [0x4d, 1, 1, 1, 0, 0, 0, 0, 0x68, 0x69];

/// A scalar of two bytes with one byte of content.
static SCALAR: [u8; 9] = [0x4d, 1, 8, 2, 1, 0, 0, 0, 0];

#[test]
fn a_frame_has_its_first_fault(rt: HostRuntime) {
    let rows = [
        fault_to(1025, &HI) == None,
        fault_to(53, &CREATE) == None,
        fault_to(53, &HI) == Some(Fault::Ns(NsFault::NsSize)),
        fault_to(52, &CREATE) == Some(Fault::Letter(LetterFault::Magic)),
        fault_to(0x3500_0000, &[]) == Some(Fault::Letter(LetterFault::PayloadShort)),
        fault_to(1024, &SCALAR) == Some(Fault::Letter(LetterFault::Size)),
        fault_of(&[0; 15]) == Some(Fault::Frame(FrameFault::FrameShort)),
        fault_of(&[0; 16]) == Some(Fault::Letter(LetterFault::PayloadShort)),
        fault_of(&[0; 513]) == Some(Fault::Frame(FrameFault::FrameLong)),
        // The header's length is wrong, and so is the payload.
        fault_of(&[0xff; 20]) == Some(Fault::Frame(FrameFault::HeaderLen)),
    ];
    assert_rows(&rt, &rows);
}
