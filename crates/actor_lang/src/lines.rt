//! The lines of a text and the words of a line, each found from the front.

ghost use Rattle.std.specs.Prelude.{◌≡◌, ◌+◌, ◌≤◌, ◌<◌, ◌∷◌, length, option_map};
ghost use Rattle.board_model.specs.FileLines.{parts_at};
ghost use Rattle.actor_lang.specs.InputLines.{input_lines, words_in};
ghost use Rattle.actor_lang.specs.Parts.{seen, parts_left, bytes_left};

use arrayvec::ArrayVec;
use board_model::length_before;

/// The most words of a line.
const WORDS: usize = 6;

/// Returns what stands before the first separator, and what stands behind it.
fn first_part(separator: u8, text: &[u8]) -> (&[u8], Option<&[u8]>)
    ensures parts { parts_at separator text.now ≡ result.0.now ∷ parts_left separator result.1 }
    ensures whole { length result.0.now + bytes_left result.1 ≡ length text.now }
{
    let (front, after) = text.split_at(length_before(separator, text));
    match after {
        [_, rest @ ..] => (front, Some(rest)),
        [] => (front, None),
    }
}

/// Returns the first line of a text, and what follows it.
pub fn first_line(text: &[u8]) -> (&[u8], &[u8])
    requires { 1 ≤ length text.now }
    ensures line { input_lines text.now ≡ result.0.now ∷ input_lines result.1.now }
    ensures shorter { length result.1.now < length text.now }
{
    let (line, rest) = first_part(b'\n', text);
    match rest {
        Some(rest) => (line, rest),
        None => (line, &[]),
    }
}

/// Returns the words of a line with one space between two of them. Returns `None` where one has no byte, or there are more than six.
pub fn words(line: &[u8]) -> Option<ArrayVec<&[u8], WORDS>>
    ensures { option_map (λ w. seen w.items) result ≡ words_in line.now }
{
    let mut words = ArrayVec::new();
    let mut rest = Some(line);
    while let Some(text) = rest {
        let (word, after) = first_part(b' ', text);
        if word.is_empty() || words.is_full() {
            return None;
        }
        words.push(word);
        rest = after;
    }
    Some(words)
}
