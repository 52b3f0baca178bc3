//! What is proved of the definitions themselves.

ghost use Rattle.std.specs.Prelude.{◌≡◌, ◌<◌, ℕ, ◌*◌, ◌^◌, Ok};
ghost use Rattle.mc_base.specs.declared.channel.Bits.{Bits};
ghost use Rattle.mc_base.specs.Letter.{bytes_of_bits};
ghost use Rattle.scalar_channel.specs.Scalar.{scalar_bytes, scalar_of};

/// Each value that fits its bits is read back from its bytes.
pub fn scalars_are_read_back()
    ensures { (bits : Bits) (value : ℕ) → value < 2 ^ (8 * bytes_of_bits bits) → scalar_of bits (scalar_bytes bits value) ≡ Ok value }
{}
