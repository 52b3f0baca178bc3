//! Parsing single words of a file, numbers and bytes, and finding where a word ends.

ghost use Rattle.std.specs.Prelude.{◌≡◌, ◌≤◌, ◌<◌, ◌*◌, Some, None, true, false, nat_lt, if◌then◌else◌, length, take, drop, IfSome};
ghost use Rattle.board_model.specs.FileWords.{number_from, number_of, digit_value, pairs_of};
ghost use Rattle.board_model.specs.FileWords.{is_digit as is_a_digit};
ghost use Rattle.board_model.specs.FileWords.{is_dash as spells_none};
ghost use Rattle.board_model.specs.Numerals.{at_most, ends_at, is_other};
ghost use Rattle.std.specs.List.{list_all};

use memchr::memchr;

fn is_digit(byte: u8) -> bool
    ensures { result ≡ is_a_digit byte }
{
    matches!(byte, b'0'..=b'9')
}

/// Parses decimal digits. Returns `None` where a byte is no digit or the number is more than `most`.
fn digits(most: u64, word: &[u8]) -> Option<u64>
    ensures { result ≡ at_most most (number_from 0 word.now) }
{
    let mut value = 0u64;
    let mut rest = word;
    while let [byte, after @ ..] = rest {
        if !is_digit(*byte) {
            return None;
        }
        let digit = u64::from(*byte - b'0');
        if digit > most {
            return None;
        }
        if value > (most - digit) / 10 {
            return None;
        }
        value = value * 10 + digit;
        rest = after;
    }
    Some(value)
}

/// Parses a decimal number without sign or leading zeros (docs/FORMATS.md, "Scenario files"). Returns `None` where the word is none
/// or the number is more than `most`.
pub fn number_to(most: u64, word: &[u8]) -> Option<u64>
    ensures value { result ≡ at_most most (number_of word.now) }
    ensures small { IfSome result (λ n. n ≤ most) }
{
    match word {
        [] => None,
        [b'0'] => Some(0),
        [b'0', ..] => None,
        _ => digits(most, word),
    }
}

/// What `digit_or_none` returns for a byte that is no digit.
const NO_DIGIT: u8 = 255;

/// Returns the value of a hexadecimal digit of either case, or `NO_DIGIT`.
#[inline(always)]
fn digit_or_none(byte: u8) -> u8
    ensures { digit_value byte ≡ (if nat_lt result 16 then Some result else None) }
{
    match byte {
        b'0'..=b'9' => byte - b'0',
        b'a'..=b'f' => byte - b'a' + 10,
        b'A'..=b'F' => byte - b'A' + 10,
        _ => NO_DIGIT,
    }
}

/// Returns the value of a hexadecimal digit of either case, or `None` where the byte is no digit.
pub fn hex_digit(byte: u8) -> Option<u8>
    ensures value { result ≡ digit_value byte }
    ensures small { IfSome result (λ v. v < 16) }
{
    let value = digit_or_none(byte);
    if value < 16 { Some(value) } else { None }
}

/// Decodes pairs of hexadecimal digits of either case into `out`, and returns whether all were digits. The word must be twice as
/// long as `out`. The loop never exits early, so that the compiler can vectorise it.
pub fn decode_pairs(word: &[u8], out: &mut [u8]) -> bool
    requires { length word.now ≡ 2 * length out.old }
    ensures bytes { result ≡ true → pairs_of word.now ≡ Some out.new }
    ensures none { result ≡ false → pairs_of word.now ≡ None }
{
    let mut all = true;
    for i in 0..out.len() {
        let high = digit_or_none(word[2 * i]);
        let low = digit_or_none(word[2 * i + 1]);
        all &= (high < 16) & (low < 16);
        out[i] = (high % 16) * 16 + low % 16;
    }
    all
}

/// Returns whether a word is a dash, which stands for no bytes.
pub fn is_dash(word: &[u8]) -> bool
    ensures { result ≡ spells_none word.now }
{
    match word {
        [byte] => *byte == b'-',
        _ => false,
    }
}

/// Counts the bytes before the first that is `stop`, or all where none is. `memchr` searches by vectors, which is faster on long
/// texts only.
fn place_of(stop: u8, text: &[u8]) -> usize
    ensures front { list_all (is_other stop) (take result text.now) ≡ true }
    ensures end { ends_at stop (drop result text.now) ≡ true }
    ensures within { result ≤ length text.now }
{
    match memchr(stop, text) {
        Some(at) => at,
        None => text.len(),
    }
}

/// How many bytes are searched one by one, before `memchr` is called. Most words are shorter.
const SHORT_WORD: usize = 12;

/// Counts the bytes before the first that is `stop`, or all where none is.
pub fn length_before(stop: u8, text: &[u8]) -> usize
    ensures front { list_all (is_other stop) (take result text.now) ≡ true }
    ensures end { ends_at stop (drop result text.now) ≡ true }
    ensures within { result ≤ length text.now }
{
    let mut count = 0;
    while count < text.len() && text[count] != stop {
        if count == SHORT_WORD {
            let (_, rest) = text.split_at(count);
            return count + place_of(stop, rest);
        }
        count += 1;
    }
    count
}
