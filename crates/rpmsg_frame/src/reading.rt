ghost use Rattle.std.specs.Prelude.{◌≡◌, ℕ, List, IfOk, IsOkAnd, MatchResult, None, Some};
ghost use Rattle.mc_base.specs.FaultRow.{first_fault};
ghost use Rattle.mc_base.specs.Frame.{IsFrame, frame_faults};

use byteorder::{ByteOrder, LittleEndian};
use mc_base::{FRAME_HEADER_SIZE, FrameFault, LONGEST_FRAME};

/// A frame: the addresses that it comes from and goes to, and its payload.
#[derive(Clone, Copy, Debug)]
pub struct Frame<'a> {
    pub src: u32,
    pub dst: u32,
    pub payload: &'a [u8],
}

/// Reads the frame in the bytes that a buffer carries. The payload is not copied. Bytes after the payload, and those of
/// reserved and flags, may be any.
///
/// # Errors
///
/// The first of these: `FrameShort` for fewer than 16 bytes, `FrameLong` for more than 512, `HeaderLen` for a header
/// whose length is more than what follows it.
pub fn decode(frame: &[u8]) -> Result<Frame<'_>, FrameFault>
    // What is read is a frame of these values.
    ensures sound { IfOk result (λ f. IsFrame frame.now f.src f.dst f.payload.now) }
    // Each frame is read, with its values.
    ensures complete { (src dst : ℕ) (payload : List ℕ) → IsFrame frame.now src dst payload
        → IsOkAnd result (λ f. (f.src ≡ src) × (f.dst ≡ dst) × (f.payload.now ≡ payload)) }
    // The fault is the first of the table, and there is none where a frame is read.
    ensures fault { MatchResult result
        (λ f. first_fault (frame_faults frame.now) ≡ None)
        (λ e. first_fault (frame_faults frame.now) ≡ Some e) }
{
    if frame.len() < FRAME_HEADER_SIZE {
        return Err(FrameFault::FrameShort);
    }
    if frame.len() > LONGEST_FRAME {
        return Err(FrameFault::FrameLong);
    }
    let (_, body) = frame.split_at(FRAME_HEADER_SIZE);
    let len = usize::from(LittleEndian::read_u16(&frame[12..]));
    if len > body.len() {
        return Err(FrameFault::HeaderLen);
    }
    let (payload, _) = body.split_at(len);
    Ok(Frame {
        src: LittleEndian::read_u32(frame),
        dst: LittleEndian::read_u32(&frame[4..]),
        payload,
    })
}
