//! Pieces of a line: what stands before a blank, and the bytes of a word.

ghost use Rattle.std.specs.Prelude.{◌≡◌, ◌≤◌, ◌+◌, ◌*◌, ◌/◌, ◌%◌, true, Some, IfSome, option_map, length, take, drop};
ghost use Rattle.std.specs.List.{list_all};
ghost use Rattle.board_model.specs.FileWords.{pairs_of};
ghost use Rattle.mc_journal.specs.Readers.{bytes_in, cut_at};
ghost use Rattle.mc_journal.specs.Spelled.{is_lower, spelled};

use board_model::{is_dash, length_before};

/// Returns what stands before the first blank, and after it.
pub fn cut(text: &[u8]) -> Option<(&[u8], &[u8])>
    ensures value { option_map (λ x. (x.0.now, x.1.now)) result ≡ cut_at 32 text.now }
    ensures front { IfSome result (λ x. length x.0.now ≤ length text.now) }
    ensures rest { IfSome result (λ x. length x.1.now ≤ length text.now) }
{
    let (front, after) = text.split_at(length_before(b' ', text));
    match after {
        [_, rest @ ..] => Some((front, rest)),
        [] => None,
    }
}

/// Whether a byte is a digit of lower case.
fn is_lower_digit(byte: u8) -> bool
    ensures { result ≡ is_lower byte }
{
    (byte >= b'0' && byte <= b'9') || (byte >= b'a' && byte <= b'f')
}

/// Whether all bytes are digits of lower case. The loop does not end early: LLVM then compiles it to vectors.
fn are_lower_digits(word: &[u8]) -> bool
    ensures { result ≡ list_all is_lower word.now }
{
    let mut all = true;
    for i in 0..word.len() {
        all &= is_lower_digit(word[i]);
    }
    all
}

/// Returns the digits of the bytes that a word spells in lower case, or no digits for a dash.
pub fn digits_of(word: &[u8]) -> Option<&[u8]>
    ensures value { option_map (λ t. spelled t.now) result ≡ bytes_in word.now }
    ensures lower { IfSome result (λ t. list_all is_lower t.now ≡ true) }
    ensures count { IfSome result (λ t. length t.now ≡ 2 * length (spelled t.now)) }
    ensures shorter { IfSome result (λ t. length t.now ≤ length word.now) }
{
    if is_dash(word) {
        return Some(&[]);
    }
    if word.is_empty() {
        return None;
    }
    if word.len() % 2 != 0 {
        return None;
    }
    if are_lower_digits(word) {
        Some(word)
    } else {
        None
    }
}

/// Returns the byte that two digits of lower case spell: the first is the low byte of `pair`, the second the high one.
#[inline(always)]
fn byte_of_digits(pair: u16) -> u8
    ensures { result ≡ ((pair % 16 + 9 * (pair / 64 % 2)) * 16 + (pair / 256 % 16 + 9 * (pair / 16384))) % 256 }
{
    let high = pair % 16 + 9 * (pair / 64 % 2);
    let low = pair / 256 % 16 + 9 * (pair / 16384);
    ((high * 16 + low) % 256) as u8
}

/// Decodes pairs of digits of lower case.
///
/// A pair is read as one number, and its byte is calculated in 16 bits: LLVM then compiles the loop to vectors. It would gather two
/// neighbouring bytes one by one.
pub fn decode_lower(word: &[u8], out: &mut [u8])
    requires size { length word.now ≡ 2 * length out.old }
    requires lower { list_all is_lower word.now ≡ true }
    ensures { pairs_of word.now ≡ Some out.new }
{
    for i in 0..out.len() {
        let pair = word[2 * i] as u16 + 256 * (word[2 * i + 1] as u16);
        out[i] = byte_of_digits(pair);
    }
}

/// Returns the bytes that a word spells in lower case, or none of them for a dash. They are written to the room.
pub fn bytes_of<'a>(word: &[u8], room: &'a mut [u8]) -> Option<&'a [u8]>
    requires { length word.now ≤ length room.old }
    ensures { option_map (λ t. t.now) result ≡ bytes_in word.now }
{
    let digits = digits_of(word)?;
    let out = &mut room[..digits.len() / 2];
    decode_lower(digits, out);
    Some(out)
}
