//! The numbers of a line.

ghost use Rattle.std.specs.Prelude.{◌≡◌, ◌≤◌, IfSome};
ghost use Rattle.board_model.specs.FileWords.{numeral};
ghost use Rattle.board_model.specs.LineReasons.{is_link_size as is_size};
ghost use Rattle.actor_lang.specs.InputNumbers.{number_in, ring_size as size_numeral};

use board_model::number_to;

/// Returns the number that a word writes, from `least` to `most`.
pub fn number(least: u64, most: u64, word: &[u8]) -> Option<u64>
    ensures number { result ≡ number_in (numeral least most word.now) }
    ensures within { IfSome result (λ n. n ≤ most) }
{
    match number_to(most, word) {
        Some(value) if value >= least => Some(value),
        _ => None,
    }
}

fn is_ring_size(size: u64) -> bool
    ensures { result ≡ is_size size }
{
    matches!(size, 2 | 4 | 8 | 16 | 32 | 64 | 128 | 256)
}

/// Returns the size of a ring that a word writes: a power of two from `least` to 256.
pub fn ring_size(least: u64, word: &[u8]) -> Option<u32>
    ensures size { result ≡ number_in (size_numeral least word.now) }
    ensures least { IfSome result (λ n. least ≤ n) }
{
    match number_to(256, word) {
        Some(size) if size >= least && is_ring_size(size) => Some(size as u32),
        _ => None,
    }
}
