//! The words of a ring, read without a panic.

ghost use Rattle.std.specs.Prelude.{◌≡◌, slice_index};

/// The word at a place, or 0 behind the last.
pub fn word_at(words: &[u64], place: usize) -> u64
    ensures { result ≡ slice_index words.now place }
{
    match words.get(place) {
        Some(word) => *word,
        None => 0,
    }
}
