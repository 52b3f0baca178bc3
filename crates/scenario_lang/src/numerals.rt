//! What a word says: a number, bytes or a label.

ghost use Rattle.std.specs.Prelude.{◌≡◌, ◌≤◌, IfOk, length};
ghost use Rattle.board_model.specs.FileWords.{numeral, bytes_of};
ghost use Rattle.board_model.specs.FileWords.{is_label as spells_label};
ghost use Rattle.std.specs.List.{list_all};
ghost use Rattle.scenario_lang.specs.Reading.{Answers, Reads, number_in, some_bytes, pairs_in, bytes_in, label_in};
ghost use Rattle.board_model.specs.FileWords.{is_letter_byte, is_label_byte as is_of_label};

use crate::fault::LineFault;
use board_model::{Label, LineReason, decode_pairs, is_dash, number_to};
use std::alloc::Global;

/// Reads the number that a word writes, in its range.
pub fn number(least: u64, most: u64, word: &[u8]) -> Result<u64, LineReason>
    ensures number { Reads (λ n. n) result (number_in (numeral least most word.now)) }
    ensures within { IfOk result (λ n. n ≤ most) }
{
    match number_to(most, word) {
        Some(value) if value >= least => Ok(value),
        _ => Err(LineReason::Number),
    }
}

/// Reads bytes from pairs of digits.
fn pairs(alloc: Global, word: &[u8]) -> Result<Vec<u8>, LineFault>
    ensures { Answers (λ v. v.items) result (pairs_in word.now) }
{
    if word.len() % 2 != 0 {
        return Err(LineFault::Refused(LineReason::Bytes));
    }
    let Ok(mut bytes) = vec![in alloc; 0u8; word.len() / 2] else {
        return Err(LineFault::NoMemory);
    };
    if decode_pairs(word, &mut bytes) {
        Ok(bytes)
    } else {
        Err(LineFault::Refused(LineReason::Bytes))
    }
}

/// Reads the bytes that a word writes, however many they are.
fn all_bytes(alloc: Global, word: &[u8]) -> Result<Vec<u8>, LineFault>
    ensures { Answers (λ v. v.items) result (some_bytes (bytes_of word.now)) }
{
    if is_dash(word) {
        return Ok(Vec::new(alloc));
    }
    pairs(alloc, word)
}

/// Reads the bytes that a word writes, from `least` to `most` of them.
pub fn bytes(alloc: Global, least: usize, most: usize, word: &[u8]) -> Result<Vec<u8>, LineFault>
    ensures { Answers (λ v. v.items) result (bytes_in least most word.now) }
{
    let bytes = all_bytes(alloc, word)?;
    if bytes.len() < least || bytes.len() > most {
        return Err(LineFault::Refused(LineReason::Bytes));
    }
    Ok(bytes)
}

fn is_label_byte(byte: u8) -> bool
    ensures { result ≡ is_of_label byte }
{
    matches!(byte, b'a'..=b'z' | b'0'..=b'9' | b'_')
}

fn are_label_bytes(bytes: &[u8]) -> bool
    ensures { result ≡ list_all is_of_label bytes.now }
{
    bytes.iter().all(|byte| is_label_byte(*byte))
}

fn is_letter(byte: u8) -> bool
    ensures { result ≡ is_letter_byte byte }
{
    matches!(byte, b'a'..=b'z')
}

/// Whether a word is a label.
pub fn is_label(word: &[u8]) -> bool
    ensures { result ≡ spells_label word.now }
{
    match word {
        [first, rest @ ..] => is_letter(*first) && rest.len() <= 15 && are_label_bytes(rest),
        [] => false,
    }
}

/// Copies the bytes of a label.
pub fn label_from(word: &[u8]) -> Label
    requires { length word.now ≤ 16 }
    ensures { result.items ≡ word.now }
{
    let mut label = Label::new();
    for byte in word {
        label.push(*byte);
    }
    label
}

/// Reads a label.
pub fn label(word: &[u8]) -> Result<Label, LineReason>
    ensures { Reads (λ label. label) result (label_in word.now) }
{
    if !is_label(word) {
        return Err(LineReason::Form);
    }
    Ok(label_from(word))
}
