//! Entries of a journal, read from their lines with the digits of their bytes as they stand there. Nothing is decoded, and no room is
//! needed. The readers are those of `reading` and `answers`, form by form.

ghost use Rattle.std.specs.Prelude.{◌≡◌, ℕ, ◌≤◌, ◌*◌, ◌+◌, ◌/◌, ◌%◌, true, IfSome, option_map, length};
ghost use Rattle.std.specs.List.{flat_map};
ghost use Rattle.std.specs.Str.{bytes_eq};
ghost use Rattle.mc_base.specs.Text.{hex_digit, hex_byte};
ghost use Rattle.board_model.specs.Journal.{taken};
ghost use Rattle.mc_journal.specs.Entry.{line_of_entry, plain_answer, result_of_told};
ghost use Rattle.mc_journal.specs.LineForms.{line_in};
ghost use Rattle.mc_journal.specs.declared.forms.Form.TheVariants as form;
ghost use Rattle.mc_journal.specs.Readers.{answer_after, answer_in, answer_word, cut_at, cut_in, done_after, done_in, ok_in, peer_in, place_in, placed_by, rest_in, result_after, result_word, taken_in, whole_in};
ghost use Rattle.mc_journal.specs.Spelled.{AreDigits, frame_digits, spelled, spelled_answer, spelled_line, spelled_result};

use crate::answers::count_of;
use crate::entry::{Answer, Entry, Told};
use crate::forms::{Form, form_of, form_word};
use crate::pieces::{cut, decode_lower, digits_of};
use crate::tables::{fate_of, reason_of, refusal_of};
use board_model::number_to;
use mc_base::Fate;

/// Returns the two digits of a byte as one number, the first in the low byte.
#[inline(always)]
fn digits_of_byte(byte: u8) -> u16
    ensures { result ≡ hex_digit (byte / 16) + 256 * hex_digit (byte % 16) }
{
    let high = byte / 16;
    let low = byte % 16;
    let first = if high < 10 { 48 + high } else { 87 + high };
    let second = if low < 10 { 48 + low } else { 87 + low };
    first as u16 + 256 * (second as u16)
}

/// Whether digits spell these bytes in lower case.
///
/// Two digits are compared as one number of 16 bits, and the loop does not end early: LLVM then compiles it to vectors.
pub fn spells(digits: &[u8], bytes: &[u8]) -> bool
    ensures value { result ≡ bytes_eq digits.now (flat_map hex_byte bytes.now) }
    ensures bytes { result ≡ true → spelled digits.now ≡ bytes.now }
{
    if digits.len() % 2 != 0 {
        return false;
    }
    if digits.len() / 2 != bytes.len() {
        return false;
    }
    let mut all = true;
    for i in 0..bytes.len() {
        let pair = digits[2 * i] as u16 + 256 * (digits[2 * i + 1] as u16);
        all &= pair == digits_of_byte(bytes[i]);
    }
    all
}

/// Whether two frames are the same, by their digits.
pub fn spell_same(one: &[u8], two: &[u8]) -> bool
    requires one { AreDigits one.now }
    requires two { AreDigits two.now }
    ensures { result ≡ bytes_eq (spelled one.now) (spelled two.now) }
{
    one == two
}

/// Returns the bytes that digits spell. They are written to `room`.
pub fn bytes_spelled<'a>(digits: &[u8], room: &'a mut [u8]) -> &'a [u8]
    requires digits { AreDigits digits.now }
    requires room { length digits.now ≤ length room.old }
    ensures { result.now ≡ spelled digits.now }
{
    let out = &mut room[..digits.len() / 2];
    decode_lower(digits, out);
    out
}

/// Reads an entry from its line, without the newline, with digits in place of its bytes: the frame of a put or a take, and the bytes of an
/// answer or of a result. The line is that of the entry whose bytes these digits spell. The digits of a frame are of lower case, two for each
/// byte. It takes no memory.
///
/// `None` exactly where the line is the text of no entry (docs/FORMATS.md, "Journal text").
pub fn spelled_entry<'a>(line: &'a [u8]) -> Option<Entry<'a>>
    ensures line { option_map (λ e. spelled_line (line_of_entry e)) result ≡ line_in line.now }
    ensures digits { IfSome result (λ e. AreDigits (frame_digits e)) }
    ensures few { (most : ℕ) → length line.now ≤ most → IfSome result (λ e. length (frame_digits e) ≤ most) }
{
    match cut(line) {
        None if line == form_word(Form::Turn) => Some(Entry::Turn),
        None => None,
        Some((head, rest)) => entry_behind(form_of(head)?, rest),
    }
}

/// Returns the entry of a form, of which a blank and this rest follow the word.
fn entry_behind<'a>(form: Form, rest: &'a [u8]) -> Option<Entry<'a>>
    ensures line { option_map (λ e. spelled_line (line_of_entry e)) result ≡ rest_in form rest.now }
    ensures digits { IfSome result (λ e. AreDigits (frame_digits e)) }
    ensures few { (most : ℕ) → length rest.now ≤ most → IfSome result (λ e. length (frame_digits e) ≤ most) }
{
    match form {
        Form::Idle => idle_of(rest),
        Form::Again => again_of(rest),
        Form::Spin => spin_of(rest),
        Form::Turn => None,
        Form::Back => back_of(rest),
        Form::Put => put_of(rest),
        Form::See => see_of(rest),
        Form::Take => take_of(rest),
        Form::Wait => wait_of(rest),
        Form::Call => call_of(rest),
    }
}

fn idle_of<'a>(rest: &'a [u8]) -> Option<Entry<'a>>
    ensures line { option_map (λ e. spelled_line (line_of_entry e)) result ≡ rest_in form.Idle rest.now }
    ensures digits { IfSome result (λ e. AreDigits (frame_digits e)) }
    ensures few { (most : ℕ) → length rest.now ≤ most → IfSome result (λ e. length (frame_digits e) ≤ most) }
{
    Some(Entry::Idle {
        turns: number_to(u64::MAX, rest)?,
    })
}

fn again_of<'a>(rest: &'a [u8]) -> Option<Entry<'a>>
    ensures line { option_map (λ e. spelled_line (line_of_entry e)) result ≡ rest_in form.Again rest.now }
    ensures digits { IfSome result (λ e. AreDigits (frame_digits e)) }
    ensures few { (most : ℕ) → length rest.now ≤ most → IfSome result (λ e. length (frame_digits e) ≤ most) }
{
    Some(Entry::Again {
        word: refusal_of(rest)?,
    })
}

fn spin_of<'a>(rest: &'a [u8]) -> Option<Entry<'a>>
    ensures line { option_map (λ e. spelled_line (line_of_entry e)) result ≡ rest_in form.Spin rest.now }
    ensures digits { IfSome result (λ e. AreDigits (frame_digits e)) }
    ensures few { (most : ℕ) → length rest.now ≤ most → IfSome result (λ e. length (frame_digits e) ≤ most) }
{
    let (times, word) = cut(rest)?;
    Some(Entry::Spin {
        times: number_to(u64::MAX, times)?,
        word: refusal_of(word)?,
    })
}

fn peer_of(word: &[u8]) -> Option<u8>
    ensures { result ≡ peer_in word.now }
{
    Some(number_to(u8::MAX as u64, word)? as u8)
}

fn back_of<'a>(rest: &'a [u8]) -> Option<Entry<'a>>
    ensures line { option_map (λ e. spelled_line (line_of_entry e)) result ≡ rest_in form.Back rest.now }
    ensures digits { IfSome result (λ e. AreDigits (frame_digits e)) }
    ensures few { (most : ℕ) → length rest.now ≤ most → IfSome result (λ e. length (frame_digits e) ≤ most) }
{
    let (peer, count) = cut(rest)?;
    Some(Entry::Back {
        peer: peer_of(peer)?,
        count: count_of(count)?,
    })
}

fn put_of<'a>(rest: &'a [u8]) -> Option<Entry<'a>>
    ensures line { option_map (λ e. spelled_line (line_of_entry e)) result ≡ rest_in form.Put rest.now }
    ensures digits { IfSome result (λ e. AreDigits (frame_digits e)) }
    ensures few { (most : ℕ) → length rest.now ≤ most → IfSome result (λ e. length (frame_digits e) ≤ most) }
{
    let (peer, frame) = cut(rest)?;
    Some(Entry::Put {
        peer: peer_of(peer)?,
        frame: digits_of(frame)?,
    })
}

fn see_of<'a>(rest: &'a [u8]) -> Option<Entry<'a>>
    ensures line { option_map (λ e. spelled_line (line_of_entry e)) result ≡ rest_in form.See rest.now }
    ensures digits { IfSome result (λ e. AreDigits (frame_digits e)) }
    ensures few { (most : ℕ) → length rest.now ≤ most → IfSome result (λ e. length (frame_digits e) ≤ most) }
{
    let (peer, count) = cut(rest)?;
    Some(Entry::See {
        peer: peer_of(peer)?,
        count: count_of(count)?,
    })
}

fn take_of<'a>(rest: &'a [u8]) -> Option<Entry<'a>>
    ensures line { option_map (λ e. spelled_line (line_of_entry e)) result ≡ rest_in form.Take rest.now }
    ensures digits { IfSome result (λ e. AreDigits (frame_digits e)) }
    ensures few { (most : ℕ) → length rest.now ≤ most → IfSome result (λ e. length (frame_digits e) ≤ most) }
{
    let (peer, what) = cut(rest)?;
    let peer = peer_of(peer)?;
    let (frame, fate) = taken_of(what)?;
    Some(Entry::Take { peer, frame, fate })
}

/// Returns a frame that was taken, and what became of it.
fn taken_of<'a>(text: &'a [u8]) -> Option<(&'a [u8], Fate)>
    ensures frame { option_map (λ x. taken (spelled x.0.now) x.1) result ≡ taken_in text.now }
    ensures digits { IfSome result (λ x. AreDigits x.0.now) }
    ensures few { (most : ℕ) → length text.now ≤ most → IfSome result (λ x. length x.0.now ≤ most) }
{
    let (frame, fate) = cut(text)?;
    Some((digits_of(frame)?, fate_of(fate)?))
}

fn wait_of<'a>(rest: &'a [u8]) -> Option<Entry<'a>>
    ensures line { option_map (λ e. spelled_line (line_of_entry e)) result ≡ rest_in form.Wait rest.now }
    ensures digits { IfSome result (λ e. AreDigits (frame_digits e)) }
    ensures few { (most : ℕ) → length rest.now ≤ most → IfSome result (λ e. length (frame_digits e) ≤ most) }
{
    Some(Entry::WaitStart {
        number: count_of(rest)?,
    })
}

fn call_of<'a>(rest: &'a [u8]) -> Option<Entry<'a>>
    ensures line { option_map (λ e. spelled_line (line_of_entry e)) result ≡ rest_in form.Call rest.now }
    ensures digits { IfSome result (λ e. AreDigits (frame_digits e)) }
    ensures few { (most : ℕ) → length rest.now ≤ most → IfSome result (λ e. length (frame_digits e) ≤ most) }
{
    let (number, answer) = cut(rest)?;
    Some(Entry::Called {
        number: count_of(number)?,
        answer: answer_of(answer)?,
    })
}

/// Returns the answer that a text is.
fn answer_of<'a>(text: &'a [u8]) -> Option<Answer<'a>>
    ensures { option_map (λ a. spelled_answer (plain_answer a)) result ≡ answer_in text.now }
{
    match cut(text) {
        None => answer_of_word(text),
        Some((head, rest)) => answer_behind(head, rest),
    }
}

fn answer_of_word<'a>(word: &'a [u8]) -> Option<Answer<'a>>
    ensures { option_map (λ a. spelled_answer (plain_answer a)) result ≡ answer_word word.now }
{
    if word == b"ok".as_slice() {
        return Some(Answer::Ok);
    }
    Some(Answer::Refused(refusal_of(word)?))
}

fn answer_behind<'a>(head: &'a [u8], rest: &'a [u8]) -> Option<Answer<'a>>
    ensures { option_map (λ a. spelled_answer (plain_answer a)) result ≡ answer_after head.now rest.now }
{
    if head == b"ok".as_slice() {
        ok_of(rest)
    } else if head == b"truncated".as_slice() {
        let (size, bytes) = cut_bytes(rest)?;
        Some(Answer::Bytes { size, bytes })
    } else if head == b"done".as_slice() {
        done_of(rest)
    } else {
        None
    }
}

/// What follows `ok`: a number, a size and no fewer bytes, or else a request and a channel.
fn ok_of<'a>(text: &'a [u8]) -> Option<Answer<'a>>
    ensures { option_map (λ a. spelled_answer (plain_answer a)) result ≡ ok_in text.now }
{
    match cut(text) {
        None => Some(Answer::Number(number_to(u64::MAX, text)?)),
        Some((first, second)) => {
            if let Some((size, bytes)) = whole_bytes(first, second) {
                return Some(Answer::Bytes { size, bytes });
            }
            Some(Answer::Channel {
                request: number_to(u64::MAX, first)?,
                channel: count_of(second)?,
            })
        }
    }
}

/// What follows `done`: how a request ended, behind its place where it has one.
fn done_of<'a>(text: &'a [u8]) -> Option<Answer<'a>>
    ensures { option_map (λ a. spelled_answer (plain_answer a)) result ≡ done_in text.now }
{
    match cut(text) {
        None => Some(Answer::Done {
            place: None,
            result: result_of_word(text)?,
        }),
        Some((head, rest)) => done_behind(head, rest),
    }
}

fn place_of(word: &[u8]) -> Option<u8>
    ensures { result ≡ place_in word.now }
{
    Some(number_to(u8::MAX as u64, word)? as u8)
}

fn done_behind<'a>(head: &'a [u8], rest: &'a [u8]) -> Option<Answer<'a>>
    ensures { option_map (λ a. spelled_answer (plain_answer a)) result ≡ done_after head.now rest.now (place_in head.now) }
{
    match place_of(head) {
        None => Some(Answer::Done {
            place: None,
            result: result_behind(head, rest)?,
        }),
        Some(place) => placed(place, head, rest),
    }
}

/// What follows `done` where it begins with a number, which is a place, or else the size of bytes.
fn placed<'a>(place: u8, head: &'a [u8], rest: &'a [u8]) -> Option<Answer<'a>>
    ensures { option_map (λ a. spelled_answer (plain_answer a)) result ≡ placed_by place head.now rest.now (cut_at 32 rest.now) }
{
    match cut(rest) {
        None => {
            if let Some((size, bytes)) = whole_bytes(head, rest) {
                return Some(Answer::Done {
                    place: None,
                    result: Told::Bytes { size, bytes },
                });
            }
            Some(Answer::Done {
                place: Some(place),
                result: result_of_word(rest)?,
            })
        }
        Some((first, second)) => Some(Answer::Done {
            place: Some(place),
            result: result_behind(first, second)?,
        }),
    }
}

fn result_of_word<'a>(word: &'a [u8]) -> Option<Told<'a>>
    ensures { option_map (λ t. spelled_result (result_of_told t)) result ≡ result_word word.now }
{
    if let Some(address) = count_of(word) {
        return Some(Told::Address(address));
    }
    if word == b"accepted".as_slice() {
        return Some(Told::Accepted);
    }
    Some(Told::Ended(refusal_of(word)?))
}

fn result_behind<'a>(head: &'a [u8], rest: &'a [u8]) -> Option<Told<'a>>
    ensures { option_map (λ t. spelled_result (result_of_told t)) result ≡ result_after head.now rest.now }
{
    if head == b"rejected".as_slice() {
        return Some(Told::Rejected(reason_of(rest)?));
    }
    let (size, bytes) = if head == b"truncated".as_slice() {
        cut_bytes(rest)?
    } else {
        whole_bytes(head, rest)?
    };
    Some(Told::Bytes { size, bytes })
}

/// Returns a size and the bytes behind it, if they are fewer.
fn cut_bytes<'a>(text: &'a [u8]) -> Option<(u32, &'a [u8])>
    ensures { option_map (λ x. (x.0, spelled x.1.now)) result ≡ cut_in text.now }
{
    let (size, word) = cut(text)?;
    let size = count_of(size)?;
    let bytes = digits_of(word)?;
    if bytes.len() / 2 < size as usize {
        Some((size, bytes))
    } else {
        None
    }
}

/// Returns a size and bytes, if they are no fewer.
fn whole_bytes<'a>(size: &'a [u8], word: &'a [u8]) -> Option<(u32, &'a [u8])>
    ensures { option_map (λ x. (x.0, spelled x.1.now)) result ≡ whole_in size.now word.now }
{
    let size = count_of(size)?;
    let bytes = digits_of(word)?;
    if bytes.len() / 2 < size as usize {
        None
    } else {
        Some((size, bytes))
    }
}
