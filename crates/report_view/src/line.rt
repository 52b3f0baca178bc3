//! Words of a journal's line that stand at the front of a text.

use report_text::cut;

/// Returns the line at the front of a text, without its newline.
fn first_line(text: &[u8]) -> &[u8] {
    match cut(b'\n', text) {
        Some((line, _)) => line,
        None => text,
    }
}

/// Returns what stands behind the first blank of a text, or nothing where there is none.
fn behind_blank(text: &[u8]) -> &[u8] {
    match cut(b' ', text) {
        Some((_, rest)) => rest,
        None => &[],
    }
}

/// Returns the answer in the line of a call, which is at the front of a text: what stands behind its second blank.
pub fn answer_in(text: &[u8]) -> &[u8] {
    behind_blank(behind_blank(first_line(text)))
}

/// Returns the last word of the line at the front of a text.
pub fn last_word(text: &[u8]) -> &[u8] {
    let mut rest = first_line(text);
    while let Some((_, after)) = cut(b' ', rest) {
        rest = after;
    }
    rest
}
