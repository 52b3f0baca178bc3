//! The lines of a text, from the front.

ghost use Rattle.std.specs.Prelude.{◌≡◌, ◌+◌, ◌<◌, ◌≤◌, true, IfSome, drop, take, option_map, length};
ghost use Rattle.std.specs.List.{list_all};
ghost use Rattle.board_model.specs.Numerals.{ends_at, is_other};
ghost use Rattle.mc_journal.specs.Readers.{cut_at};

use memchr::memchr;

/// What is left to read of a text, and the number of its first line.
#[derive(Clone, Copy)]
pub struct Unread<'a> {
    pub number: u32,
    pub text: &'a [u8],
}

/// Counts the bytes before the first that is `stop`, or all where none is. It searches by vectors from the first byte on, since most lines of a
/// report are long.
fn place_of(stop: u8, text: &[u8]) -> usize
    ensures front { list_all (is_other stop) (take result text.now) ≡ true }
    ensures end { ends_at stop (drop result text.now) ≡ true }
    ensures within { result ≤ length text.now }
{
    match memchr(stop, text) {
        Some(at) => at,
        None => text.len(),
    }
}

/// Returns what stands before the first of these bytes, and after it.
pub fn cut(stop: u8, text: &[u8]) -> Option<(&[u8], &[u8])>
    ensures value { option_map (λ x. (x.0.now, x.1.now)) result ≡ cut_at stop text.now }
    ensures shorter { IfSome result (λ x. length x.0.now + length x.1.now < length text.now) }
    ensures behind { IfSome result (λ x. x.1.now ≡ drop (length x.0.now + 1) text.now) }
{
    let (front, after) = text.split_at(place_of(stop, text));
    match after {
        [_, rest @ ..] => Some((front, rest)),
        [] => None,
    }
}
