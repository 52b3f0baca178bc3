ghost use Rattle.std.specs.Prelude.{◌≡◌, ◌≤◌, ◌<◌, ◌+◌, ◌^◌, [], ◌++◌, length, drop, take};
ghost use Rattle.byteorder.specs.Endian.{little_bytes};
ghost use Rattle.mc_base.specs.Letter.{FitsFrame, bytes_of_bits, fields, letter_text, saying_of, scalar, spelled, spelling, version_1};

use crate::{MAGIC, PART_HEADER_SIZE, PART_VERSION, VERSION};
use byteorder::{ByteOrder, LittleEndian};
use mc_base::{Bits, Kind, LETTER_HEADER_SIZE, Letter, Reason};

/// Writes the one spelling of a letter or of a part of one, and returns its length. The rest of `out` stays.
pub fn write_letter(letter: &Letter<'_>, out: &mut [u8]) -> usize
    requires lawful { FitsFrame (saying_of letter.now) }
    requires room { 496 ≤ length out.old }
    ensures written { let text = letter_text letter.now in out.new ≡ text ++ drop (length text) out.old }
    ensures len { result ≡ length (letter_text letter.now) }
{
    match *letter {
        Letter::Msg { priority, bytes } => write_fields(1, priority.number(), 0, bytes, out),
        Letter::Connect { channel, kind } => {
            let number = match kind {
                Kind::Packet => 0,
                Kind::Scalar => 1,
            };
            write_fields(2, number, channel, &[], out)
        }
        Letter::Accept { channel } => write_fields(3, 0, channel, &[], out),
        Letter::Reject { channel, reason } => {
            let number = match reason {
                Reason::NoEndpoint => 1,
                Reason::Connected => 2,
                Reason::Busy => 3,
            };
            write_fields(4, number, channel, &[], out)
        }
        Letter::RecvOpen { channel } => write_fields(5, 0, channel, &[], out),
        Letter::SendOpen { channel } => write_fields(6, 0, channel, &[], out),
        Letter::Packet { channel, bytes } => write_fields(7, 0, channel, bytes, out),
        Letter::Scalar {
            channel,
            bits,
            value,
        } => write_scalar(channel, bits, value, out),
        Letter::SendClose { channel } => write_fields(9, 0, channel, &[], out),
        Letter::RecvClose { channel } => write_fields(10, 0, channel, &[], out),
        Letter::MsgPart {
            priority,
            total,
            offset,
            bytes,
        } => {
            write_header(PART_VERSION, 1, priority.number(), 0, out);
            write_cut(total, offset, bytes, out)
        }
        Letter::PacketPart {
            channel,
            total,
            offset,
            bytes,
        } => {
            write_header(PART_VERSION, 7, 0, channel, out);
            write_cut(total, offset, bytes, out)
        }
    }
}

/// Writes the header of a letter or a part. The rest of `out` stays.
fn write_header(version: u8, kind: u8, argument: u8, channel: u32, out: &mut [u8])
    requires { 8 ≤ length out.old }
    ensures { out.new ≡ spelled (fields version kind argument channel []) ++ drop 8 out.old }
{
    out[0] = MAGIC;
    out[1] = version;
    out[2] = kind;
    out[3] = argument;
    LittleEndian::write_u32(&mut out[4..], channel);
}

/// Writes a letter of these fields, and returns its length. The rest of `out` stays.
fn write_fields(kind: u8, argument: u8, channel: u32, content: &[u8], out: &mut [u8]) -> usize
    requires { 8 + length content.now ≤ length out.old }
    ensures written { let text = spelled (version_1 kind argument channel content.now) in
        out.new ≡ text ++ drop (length text) out.old }
    ensures len { result ≡ length (spelled (version_1 kind argument channel content.now)) }
{
    write_header(VERSION, kind, argument, channel, out);
    let end = LETTER_HEADER_SIZE + content.len();
    out[LETTER_HEADER_SIZE..end].copy_from_slice(content);
    end
}

/// Writes the two numbers and the bytes of a part behind its header, and returns the length of the payload. The rest of `out` stays.
fn write_cut(total: u16, offset: u16, bytes: &[u8], out: &mut [u8]) -> usize
    requires { 12 + length bytes.now ≤ length out.old }
    ensures written { let text = little_bytes 2 total ++ (little_bytes 2 offset ++ bytes.now) in
        out.new ≡ take 8 out.old ++ (text ++ drop (8 + length text) out.old) }
    ensures len { result ≡ 12 + length bytes.now }
{
    LittleEndian::write_u16(&mut out[LETTER_HEADER_SIZE..], total);
    LittleEndian::write_u16(&mut out[LETTER_HEADER_SIZE + 2..], offset);
    let start = LETTER_HEADER_SIZE + PART_HEADER_SIZE;
    let end = start + bytes.len();
    out[start..end].copy_from_slice(bytes);
    end
}

/// Writes a scalar, and returns the length of the letter. The rest of `out` stays.
fn write_scalar(channel: u32, bits: Bits, value: u64, out: &mut [u8]) -> usize
    requires fits { value < 256 ^ bytes_of_bits bits }
    requires room { 16 ≤ length out.old }
    ensures written { let text = spelling (scalar channel bits value) in out.new ≡ text ++ drop (length text) out.old }
    ensures len { result ≡ 8 + bytes_of_bits bits }
{
    let width: u8 = match bits {
        Bits::B8 => 1,
        Bits::B16 => 2,
        Bits::B32 => 4,
        Bits::B64 => 8,
    };
    write_header(VERSION, 8, width, channel, out);
    LittleEndian::write_uint(&mut out[LETTER_HEADER_SIZE..], value, usize::from(width));
    LETTER_HEADER_SIZE + usize::from(width)
}
