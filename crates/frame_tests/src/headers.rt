use crate::rows::assert_rows;
use mc_base::FrameFault;
use rpmsg_frame::{decode, encode_into, made_is_frame, write_header};

/// "hi" to 1025 from 1024: src, dst, reserved, len, flags, and the payload of ten bytes.
const HI: [u8; 26] = [
    0, 4, 0, 0, 1, 4, 0, 0, 0, 0, 0, 0, 10, 0, 0, 0, 0x4d, 1, 1, 1, 0, 0, 0, 0, 0x68, 0x69,
];

/// Whether the frame of these bytes has this source, destination and payload.
fn is_read(bytes: &[u8], src: u32, dst: u32, payload: &[u8]) -> bool {
    match decode(bytes) {
        Ok(frame) => frame.src == src && frame.dst == dst && frame.payload == payload,
        Err(_) => false,
    }
}

#[test]
fn frames_are_read(rt: HostRuntime) {
    // Bytes after the payload, and any in reserved and flags.
    let mut more = [0xee; 30];
    more[..26].copy_from_slice(&HI);
    let mut flagged = HI;
    flagged[8..12].copy_from_slice(&[1, 2, 3, 4]);
    flagged[14..16].copy_from_slice(&[0xff, 0xff]);
    // The largest of 512 bytes, the least of 16, and both ends of the addresses.
    let mut largest = [7; 512];
    largest[..16].copy_from_slice(&[
        0xff, 0xff, 0xff, 0xff, 0, 0, 0, 0, 0, 0, 0, 0, 0xf0, 1, 0, 0,
    ]);
    let least = [0, 0, 0, 0, 0xff, 0xff, 0xff, 0xff, 0, 0, 0, 0, 0, 0, 0, 0];
    // A header length that is shorter than the frame.
    let mut shorter = HI;
    shorter[12] = 9;
    let rows = [
        is_read(&HI, 1024, 1025, &HI[16..]),
        is_read(&more, 1024, 1025, &HI[16..]),
        is_read(&flagged, 1024, 1025, &HI[16..]),
        is_read(&largest, 0xffff_ffff, 0, &[7; 496]),
        is_read(&least, 0, 0xffff_ffff, &[]),
        is_read(&shorter, 1024, 1025, &HI[16..25]),
    ];
    assert_rows(&rt, &rows);
}

fn is_faulty(bytes: &[u8], fault: FrameFault) -> bool {
    decode(bytes).err() == Some(fault)
}

#[test]
fn faults_are_told(rt: HostRuntime) {
    let mut longer = HI;
    longer[12] = 15;
    let mut longer_by_one = HI;
    longer_by_one[12] = 11;
    // Both the frame and the header's length are wrong.
    let short_and_longer = [0xff; 15];
    let long_and_longer = [0xff; 513];
    let rows = [
        is_faulty(&[], FrameFault::FrameShort),
        is_faulty(&HI[..15], FrameFault::FrameShort),
        is_faulty(&short_and_longer, FrameFault::FrameShort),
        is_faulty(&[0; 513], FrameFault::FrameLong),
        is_faulty(&long_and_longer, FrameFault::FrameLong),
        is_faulty(&longer, FrameFault::HeaderLen),
        is_faulty(&longer_by_one, FrameFault::HeaderLen),
        is_faulty(&HI[..25], FrameFault::HeaderLen),
    ];
    assert_rows(&rt, &rows);
}

#[test]
fn a_frame_is_written(rt: HostRuntime) {
    let mut out = [0xee; 512];
    let mut is_due = encode_into(1024, 1025, &HI[16..], &mut out) == 26;
    let (written, rest) = out.split_at(26);
    is_due &= written == HI.as_slice();
    is_due &= rest.iter().all(|b| *b == 0xee);
    let mut header = [0xee; 17];
    write_header(0x0403_0201, 0xffff_ffff, 0x0605, &mut header);
    is_due &= header == [1, 2, 3, 4, 255, 255, 255, 255, 0, 0, 0, 0, 5, 6, 0, 0, 0xee];
    assert!(rt; is_due);
    made_is_frame();
}
