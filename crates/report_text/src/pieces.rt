//! The forms of a report's lines: a word, a number or bytes at each place.

ghost use Rattle.std.specs.Prelude.{◌≡◌, ◌+◌, ◌<◌, ◌^◌, length};
ghost use Rattle.std.specs.List.{list_all};
ghost use Rattle.report_text.specs.ReportLines.{are_form_words, is_form_word, is_small_digit, number, spells_bytes};
ghost use Rattle.report_text.specs.TextPass.{one_line};
ghost use Rattle.report_text.specs.Texts.{IsRead, form_of, form_word, rest_of, seen};

use crate::lines::{Unread, cut};
use board_model::number_to;

/// What stands at one place of a line: a word, a number of a range, or bytes in lower-case hexadecimal.
#[derive(Clone, Copy)]
pub enum Piece {
    Word(&'static [u8]),
    Number { least: u64, most: u64 },
    Bytes,
}

fn is_within(least: u64, most: u64, text: &[u8]) -> bool
    ensures { result ≡ is_form_word (number least most) text.now }
{
    match number_to(most, text) {
        Some(number) => number >= least,
        None => false,
    }
}

/// Whether a text spells bytes in lower-case hexadecimal, or is a dash for none.
fn is_bytes(text: &[u8]) -> bool
    ensures { result ≡ spells_bytes text.now }
{
    text == b"-".as_slice() || (!text.is_empty() && text.len() % 2 == 0 && are_digits(text))
}

/// Whether all bytes are lower-case hexadecimal digits.
fn are_digits(text: &[u8]) -> bool
    ensures { result ≡ list_all is_small_digit text.now }
{
    text.iter().all(|byte| { (*byte >= b'0' && *byte <= b'9') || (*byte >= b'a' && *byte <= b'f') })
}

/// Whether a text is this piece.
fn is_piece(piece: Piece, text: &[u8]) -> bool
    ensures { result ≡ is_form_word (form_word piece) text.now }
{
    match piece {
        Piece::Word(word) => word == text,
        Piece::Number { least, most } => is_within(least, most, text),
        Piece::Bytes => is_bytes(text),
    }
}

/// Whether these pieces stand in a text, with a blank between two.
fn are_pieces(pieces: &[Piece], text: &[u8]) -> bool
    ensures { result ≡ are_form_words (form_of pieces.now) text.now }
{
    match pieces {
        [] => false,
        [last] => is_piece(*last, text),
        [first, others @ ..] => match cut(b' ', text) {
            Some((word, rest)) => is_piece(*first, word) && are_pieces(others, rest),
            None => false,
        },
    }
}

/// Reads a line of this form, and returns what is left behind it, or the number of the line where it is another.
pub fn read_line<'a>(form: &[Piece], unread: Unread<'a>) -> Result<Unread<'a>, u32>
    requires few { unread.number + length unread.text.now < 2 ^ 32 }
    ensures value { seen result ≡ one_line (form_of form.now) (rest_of unread.entry) }
    ensures past { IsRead unread.entry result }
{
    let Some((line, text)) = cut(b'\n', unread.text) else {
        return Err(unread.number);
    };
    if !are_pieces(form, line) {
        return Err(unread.number);
    }
    Ok(Unread {
        number: unread.number + 1,
        text,
    })
}
