//! A value and its bytes.

ghost use Rattle.std.specs.Prelude.{◌≡◌, ◌<◌, ◌*◌, ◌^◌, ◌++◌, drop};
ghost use Rattle.mc_base.specs.Letter.{bytes_of_bits};
ghost use Rattle.scalar_channel.specs.Scalar.{scalar_bytes, scalar_of};

use byteorder::{ByteOrder, LittleEndian};
use mc_base::{Bits, SclSize};

/// How many bytes a scalar of these bits has.
fn width_of(bits: Bits) -> usize
    ensures { result ≡ bytes_of_bits bits }
{
    match bits {
        Bits::B8 => 1,
        Bits::B16 => 2,
        Bits::B32 => 4,
        Bits::B64 => 8,
    }
}

/// Writes a value, which has to fit its bits, and returns how many bytes it has. The rest of `out` stays.
pub fn write_scalar(bits: Bits, value: u64, out: &mut [u8; 8]) -> usize
    requires fits { value < 2 ^ (8 * bytes_of_bits bits) }
    ensures written { out.new ≡ scalar_bytes bits value ++ drop (bytes_of_bits bits) out.old }
    ensures len { result ≡ bytes_of_bits bits }
{
    let width = width_of(bits);
    LittleEndian::write_uint(out, value, width);
    width
}

/// Returns the value that these bytes are.
///
/// # Errors
///
/// `SclSize` exactly where there are not as many bytes as a scalar of these bits has.
pub fn read_scalar(bits: Bits, bytes: &[u8]) -> Result<u64, SclSize>
    ensures { result ≡ scalar_of bits bytes.now }
{
    let width = width_of(bits);
    if bytes.len() != width {
        return Err(SclSize);
    }
    Ok(LittleEndian::read_uint(bytes, width))
}
