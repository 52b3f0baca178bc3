ghost use Rattle.mc_base.specs.Letter.{FitsFrame, saying_of};

use crate::rows::assert_rows;
use bridge_frame::{Letter, write_letter};
use mc_base::{FrameFault, LetterFault, NAME_SERVICE_ADDRESS, Priority};
use name_service::{Fault, NsFault, Said, fault_of, frames_say_what_they_carry, read_frame};
use rpmsg_frame::encode_into;

/// "mcapi:1:0:5" at 1024.
const NAME: &[u8] = b"mcapi:1:0:5\0\0\0\0\0\0\0\0\0\0\0\0\0\0\0\0\0\0\0\0\0\0\0\0\0";

/// A frame of 512 bytes from 1024 to 1025 that carries a letter.
fn framed(letter: &Letter<'_>) -> [u8; 512]
    requires { FitsFrame (saying_of letter.now) }
{
    let mut payload = [0; 496];
    write_letter(letter, &mut payload);
    let mut frame = [0; 512];
    encode_into(1024, 1025, &payload, &mut frame);
    frame
}

/// Whether a frame says a message of so many equal bytes.
fn says_message(frame: &[u8], number: u8, byte: u8, count: usize) -> bool {
    match read_frame(frame) {
        Said::Sends { src, dst, letter } => match letter {
            Letter::Msg { priority, bytes } => {
                (src, dst) == (1024, 1025)
                    && priority.number() == number
                    && bytes.len() == count
                    && bytes.iter().all(|b| *b == byte)
            }
            _ => false,
        },
        _ => false,
    }
}

/// Whether a frame says a packet of so many equal bytes.
fn says_packet(frame: &[u8], number: u32, byte: u8, count: usize) -> bool {
    match read_frame(frame) {
        Said::Sends { letter, .. } => match letter {
            Letter::Packet { channel, bytes } => {
                channel == number && bytes.len() == count && bytes.iter().all(|b| *b == byte)
            }
            _ => false,
        },
        _ => false,
    }
}

#[test]
fn the_longest_letters_are_written_and_read(rt: HostRuntime) {
    let Some(priority) = Priority::new(3) else {
        unreachable!()
    };
    let bytes = [0xa5; 488];
    let message = Letter::Msg {
        priority,
        bytes: &bytes,
    };
    let packet = Letter::Packet {
        channel: u32::MAX,
        bytes: &bytes,
    };
    let rows = [
        says_message(&framed(&message), 3, 0xa5, 488),
        says_packet(&framed(&packet), u32::MAX, 0xa5, 488),
    ];
    assert_rows(&rt, &rows);
}

/// A frame to the name service with this name field, address 1024 and these flags.
fn announced(flags: u8) -> [u8; 512] {
    let mut payload = [0; 40];
    for (b, c) in payload.iter_mut().zip(NAME) {
        *b = *c;
    }
    payload[33] = 4;
    payload[36] = flags;
    let mut frame = [0; 512];
    encode_into(7, NAME_SERVICE_ADDRESS, &payload, &mut frame);
    frame
}

/// Whether a frame announces this, of the endpoint at 1024.
fn announces(frame: &[u8], create: bool) -> bool {
    match read_frame(frame) {
        Said::Announces(ns) => {
            ns.name.as_slice() == b"mcapi:1:0:5".as_slice()
                && ns.addr == 1024
                && ns.create == create
        }
        _ => false,
    }
}

/// Whether this is the first fault of a frame.
fn is_faulty(frame: &[u8], due: Fault) -> bool {
    match read_frame(frame) {
        Said::Faulty(fault) => fault == due && fault_of(frame) == Some(due),
        _ => false,
    }
}

#[test]
fn a_frame_is_faulty_announces_or_sends(rt: HostRuntime) {
    let rows = [
        announces(&announced(0), true),
        announces(&announced(1), false),
        is_faulty(&announced(2), Fault::Ns(NsFault::NsFlags)),
        is_faulty(&[0; 15], Fault::Frame(FrameFault::FrameShort)),
        is_faulty(&[0; 513], Fault::Frame(FrameFault::FrameLong)),
        is_faulty(&[0; 16], Fault::Letter(LetterFault::PayloadShort)),
    ];
    assert_rows(&rt, &rows);
    frames_say_what_they_carry();
}
