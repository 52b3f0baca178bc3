ghost use Rattle.std.specs.Prelude.{◌≡◌, ◌≤◌, ◌+◌, ◌++◌, length, drop};
ghost use Rattle.mc_base.specs.Frame.{header, made};

use byteorder::{ByteOrder, LittleEndian};
use mc_base::FRAME_HEADER_SIZE;

/// Writes the 16 bytes of a frame's header, for a payload of `len` bytes. Reserved and flags are 0, and the rest of
/// `out` stays: write the payload there.
pub fn write_header(src: u32, dst: u32, len: u16, out: &mut [u8])
    requires { 16 ≤ length out.old }
    ensures { out.new ≡ header src dst len ++ drop 16 out.old }
{
    LittleEndian::write_u32(out, src);
    LittleEndian::write_u32(&mut out[4..], dst);
    LittleEndian::write_u32(&mut out[8..], 0);
    LittleEndian::write_u16(&mut out[12..], len);
    LittleEndian::write_u16(&mut out[14..], 0);
}

/// Writes the frame with this payload, of at most 496 bytes, and returns its length. Reserved and flags are 0, and
/// the rest of `out` stays.
pub fn encode_into(src: u32, dst: u32, payload: &[u8], out: &mut [u8]) -> usize
    requires payload_fits { length payload.now ≤ 496 }
    requires room { 512 ≤ length out.old }
    ensures frame { out.new ≡ made src dst payload.now ++ drop (16 + length payload.now) out.old }
    ensures len { result ≡ length (made src dst payload.now) }
{
    write_header(src, dst, payload.len() as u16, out);
    let end = FRAME_HEADER_SIZE + payload.len();
    out[FRAME_HEADER_SIZE..end].copy_from_slice(payload);
    end
}
