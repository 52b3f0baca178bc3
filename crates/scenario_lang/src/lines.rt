//! The lines of a file, the words of a line and the parts of a word, each found from the front.

ghost use Rattle.std.specs.Prelude.{◌≡◌, ◌≤◌, ◌<◌, ◌∷◌, [], true, false, not, OnOk, IfErr, take, drop, length, option_map};
ghost use Rattle.std.specs.List.{list_all};
ghost use Rattle.board_model.specs.FileLines.{lines_of, words_of, parts_at, ends_word};
ghost use Rattle.board_model.specs.FileLines.{is_blank as is_a_blank};
ghost use Rattle.scenario_lang.specs.declared.fault.LineFault.TheVariants.{NoMemory as no_memory};
ghost use Rattle.scenario_lang.specs.Reading.{seen};
ghost use Rattle.scenario_lang.specs.Fronts.{unreturned, Cuts, two_parts, three_parts};

use crate::fault::LineFault;
use board_model::length_before;
use memchr::memchr2;

/// Returns a line without the carriage return before its newline.
fn without_return(line: &[u8]) -> &[u8]
    ensures { result.now ≡ unreturned line.now }
{
    if line.is_empty() {
        return line;
    }
    let (front, last) = line.split_at(line.len() - 1);
    if last[0] == b'\r' { front } else { line }
}

/// Returns the first line of a text, and what follows it.
pub fn first_line(text: &[u8]) -> (&[u8], &[u8])
    requires { 1 ≤ length text.now }
    ensures line { lines_of text.now ≡ result.0.now ∷ lines_of result.1.now }
    ensures shorter { length result.1.now < length text.now }
{
    let (front, after) = text.split_at(length_before(b'\n', text));
    match after {
        [_, rest @ ..] => (without_return(front), rest),
        [] => (front, after),
    }
}

fn is_blank(byte: u8) -> bool
    ensures { result ≡ is_a_blank byte }
{
    byte == b' ' || byte == b'\t'
}

/// Counts the bytes before the first blank, by vectors. It pays on long words alone.
fn blank_at(text: &[u8]) -> usize
    ensures front { list_all (λ b. not (is_a_blank b)) (take result text.now) ≡ true }
    ensures end { ends_word (drop result text.now) ≡ true }
    ensures within { result ≤ length text.now }
{
    match memchr2(b' ', b'\t', text) {
        Some(at) => at,
        None => text.len(),
    }
}

/// The bytes of a word that are looked at one by one. Most words have fewer.
const SHORT_WORD: usize = 12;

/// Counts the bytes before the first blank.
fn word_length(text: &[u8]) -> usize
    ensures front { list_all (λ b. not (is_a_blank b)) (take result text.now) ≡ true }
    ensures end { ends_word (drop result text.now) ≡ true }
    ensures within { result ≤ length text.now }
{
    let mut count = 0;
    while count < text.len() && !is_blank(text[count]) {
        if count == SHORT_WORD {
            let (_, rest) = text.split_at(count);
            return count + blank_at(rest);
        }
        count += 1;
    }
    count
}

/// Replaces what a list holds by the words of a line.
pub fn find_words<'a>(words: &mut Vec<&'a [u8]>, line: &'a [u8]) -> Result<(), LineFault>
    ensures words { OnOk result (seen words.new.items ≡ words_of line.now) }
    ensures memory { IfErr result (λ e. e ≡ no_memory) }
{
    words.clear();
    let mut rest = line;
    while let [byte, after @ ..] = rest {
        if is_blank(*byte) {
            rest = after;
        } else {
            let (word, after) = rest.split_at(word_length(rest));
            if words.push(word).is_err() {
                return Err(LineFault::NoMemory);
            }
            rest = after;
        }
    }
    Ok(())
}

/// Returns what is before a separator in a word, and after it.
pub fn cut(separator: u8, word: &[u8]) -> Option<(&[u8], &[u8])>
    ensures { Cuts separator word.now result }
{
    let (front, after) = word.split_at(length_before(separator, word));
    match after {
        [_, rest @ ..] => Some((front, rest)),
        [] => None,
    }
}

/// Returns the two parts of a word with one dot.
pub fn caller(word: &[u8]) -> Option<(&[u8], &[u8])>
    ensures { two_parts (parts_at 46 word.now) ≡ option_map (λ x. (x.0.now, x.1.now)) result }
{
    let (domain, node) = cut(b'.', word)?;
    match cut(b'.', node) {
        Some(_) => None,
        None => Some((domain, node)),
    }
}

/// Returns the three parts of a word with two colons.
pub fn name_parts(word: &[u8]) -> Option<(&[u8], &[u8], &[u8])>
    ensures { three_parts (parts_at 58 word.now) ≡ option_map (λ x. (x.0.now, x.1.now, x.2.now)) result }
{
    let (domain, rest) = cut(b':', word)?;
    let (node, port) = cut(b':', rest)?;
    match cut(b':', port) {
        Some(_) => None,
        None => Some((domain, node, port)),
    }
}
