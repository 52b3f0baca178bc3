ghost use Rattle.std.specs.Prelude.{◌≡◌, length};
ghost use Rattle.mc_base.specs.Limits.{buffer_size};

use mc_base::Buffer;
use std::marker::Model;

/// A buffer of a plain lane or of a lane to oneself, which has 512 bytes.
#[derive(Debug, Drop)]
pub(crate) struct PoolBuffer {
    buffer: Buffer,
}

impl Model for PoolBuffer {
    ghost use Rattle.std.specs.Prelude.{◌≡◌, length};
    ghost use Rattle.mc_base.specs.Limits.{buffer_size};
    ghost use Rattle.mc_base.specs.Stored.{Stored};

    ghost Value = { Stored };

    ghost view = { λ b. b.buffer };

    ghost invariant = { λ b. length b.buffer.bytes ≡ buffer_size };
}

impl PoolBuffer {
    /// Holds a buffer, which must have 512 bytes.
    pub fn new(buffer: Buffer) -> PoolBuffer
        requires { length buffer.bytes ≡ buffer_size }
        ensures { result ≡ buffer }
    {
        PoolBuffer { buffer }
    }

    /// Returns the buffer.
    pub fn into_buffer(self) -> Buffer
        ensures value { result ≡ self }
        ensures wide { length result.bytes ≡ buffer_size }
    {
        self.buffer
    }
}
