//! How a message or packet goes in frames.

ghost use Rattle.std.specs.Prelude.{◌≡◌};
ghost use Rattle.mc_base.specs.Pieces.{frames_of_size};

use crate::limits::{PIECE_SIZE, SINGLE_SIZE};

/// Returns how many frames a message or packet of so many bytes needs: one up to 488 bytes, and else one for every 484 bytes.
pub fn frames_needed(len: usize) -> u64
    ensures { result ≡ frames_of_size len }
{
    if len <= SINGLE_SIZE {
        1
    } else {
        len.div_ceil(PIECE_SIZE) as u64
    }
}
