ghost use Rattle.std.specs.Prelude.{◌≡◌, ◌≤◌, length, take};
ghost use Rattle.mc_base.specs.Limits.{buffer_size};

use mc_base::Buffer;

/// A frame in its buffer, of which it is the first `len` bytes.
#[derive(Debug, Drop)]
pub(crate) struct Carried {
    pub buffer: Buffer,
    pub len: u32,
    ghost fits: { len ≤ buffer_size },
    ghost wide: { length buffer.bytes ≡ buffer_size },
}

impl Carried {
    ghost use Rattle.lane_end.specs.Held.{frame_of};

    /// Copies a frame into a buffer, over its first bytes.
    pub fn load(mut buffer: Buffer, frame: &[u8]) -> Carried
        requires fits { length frame.now ≤ buffer_size }
        requires wide { length buffer.bytes ≡ buffer_size }
        ensures { frame_of result ≡ (buffer.number, frame.now) }
    {
        copy(frame, buffer.bytes_mut());
        Carried {
            buffer,
            len: frame.len() as u32,
        }
    }
}

// Copies a frame over the first bytes of a buffer.
pub(crate) fn copy(frame: &[u8], out: &mut [u8])
    requires { length frame.now ≤ length out.old }
    ensures { take (length frame.now) out.new ≡ frame.now }
{
    out[..frame.len()].copy_from_slice(frame);
}
