//! The words for the kinds of channels, and the sizes of scalars.

ghost use Rattle.std.specs.Prelude.{◌≡◌, ◌*◌, ◌-◌, ◌^◌};
ghost use Rattle.mc_base.specs.Letter.{bytes_of_bits};
ghost use Rattle.board_model.specs.Forms.{kind_in, bits_of};
ghost use Rattle.board_model.specs.Grammar.{kind_text};

use mc_base::{Bits, Kind};

/// Returns the kind with this word.
pub(crate) fn kind_of(word: &[u8]) -> Option<Kind>
    ensures { result ≡ kind_in word.now }
{
    if word == b"packet".as_slice() {
        return Some(Kind::Packet);
    }
    if word == b"scalar".as_slice() {
        return Some(Kind::Scalar);
    }
    None
}

/// Returns the word for a kind: `packet` or `scalar`.
pub fn kind_word(kind: Kind) -> &'static [u8]
    ensures { result.now ≡ kind_text kind }
{
    match kind {
        Kind::Packet => b"packet",
        Kind::Scalar => b"scalar",
    }
}

/// Returns the size of a scalar of so many bits.
pub(crate) fn bits_from(count: u64) -> Option<Bits>
    ensures { result ≡ bits_of count }
{
    match count {
        8 => Some(Bits::B8),
        16 => Some(Bits::B16),
        32 => Some(Bits::B32),
        64 => Some(Bits::B64),
        _ => None,
    }
}

/// Returns how many bits a scalar has.
pub(crate) fn bits_count(bits: Bits) -> u8
    ensures { result ≡ 8 * bytes_of_bits bits }
{
    match bits {
        Bits::B8 => 8,
        Bits::B16 => 16,
        Bits::B32 => 32,
        Bits::B64 => 64,
    }
}

/// Returns the greatest number of so many bits.
pub(crate) fn greatest(bits: Bits) -> u64
    ensures { result ≡ 2 ^ (8 * bytes_of_bits bits) - 1 }
{
    match bits {
        Bits::B8 => 0xff,
        Bits::B16 => 0xffff,
        Bits::B32 => 0xffff_ffff,
        Bits::B64 => 0xffff_ffff_ffff_ffff,
    }
}
