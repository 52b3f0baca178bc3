//! Answers of calls, read.

ghost use Rattle.std.specs.Prelude.{◌≡◌, ◌≤◌, option_map, length, IfSome};
ghost use Rattle.mc_journal.specs.Entry.{plain_answer, result_of_told};
ghost use Rattle.mc_journal.specs.Readers.{answer_after, answer_in, answer_word, count_in, cut_at, cut_in, done_after, done_in, long_in, ok_in, place_in, placed_by, result_after, result_word, whole_in};

use crate::entry::{Answer, Told};
use crate::pieces::{bytes_of, cut};
use crate::tables::{reason_of, refusal_of};
use board_model::number_to;

/// Returns the count that a word writes.
pub fn count_of(word: &[u8]) -> Option<u32>
    ensures { result ≡ count_in word.now }
{
    Some(number_to(u32::MAX as u64, word)? as u32)
}

/// Returns the answer that a text is.
pub fn answer_of<'a>(text: &[u8], room: &'a mut [u8]) -> Option<Answer<'a>>
    requires { length text.now ≤ length room.old }
    ensures { option_map plain_answer result ≡ answer_in text.now }
{
    match cut(text) {
        None => answer_of_word(text),
        Some((head, rest)) => answer_behind(head, rest, room),
    }
}

fn answer_of_word<'a>(word: &[u8]) -> Option<Answer<'a>>
    ensures { option_map plain_answer result ≡ answer_word word.now }
{
    if word == b"ok".as_slice() {
        return Some(Answer::Ok);
    }
    Some(Answer::Refused(refusal_of(word)?))
}

fn answer_behind<'a>(head: &[u8], rest: &[u8], room: &'a mut [u8]) -> Option<Answer<'a>>
    requires { length rest.now ≤ length room.old }
    ensures { option_map plain_answer result ≡ answer_after head.now rest.now }
{
    if head == b"ok".as_slice() {
        ok_of(rest, room)
    } else if head == b"truncated".as_slice() {
        let (size, bytes) = cut_bytes(rest, room)?;
        Some(Answer::Bytes { size, bytes })
    } else if head == b"done".as_slice() {
        done_of(rest, room)
    } else {
        None
    }
}

/// What follows `ok`: a number, a size and no fewer bytes, or else a request and a channel.
fn ok_of<'a>(text: &[u8], room: &'a mut [u8]) -> Option<Answer<'a>>
    requires { length text.now ≤ length room.old }
    ensures { option_map plain_answer result ≡ ok_in text.now }
{
    match cut(text) {
        None => Some(Answer::Number(number_to(u64::MAX, text)?)),
        Some((first, second)) => {
            if let Some((size, bytes)) = whole_bytes(first, second, room) {
                return Some(Answer::Bytes { size, bytes });
            }
            Some(Answer::Channel {
                request: number_to(u64::MAX, first)?,
                channel: count_of(second)?,
            })
        }
    }
}

/// What follows `done`: how a request ended, behind its place where it has one.
fn done_of<'a>(text: &[u8], room: &'a mut [u8]) -> Option<Answer<'a>>
    requires { length text.now ≤ length room.old }
    ensures { option_map plain_answer result ≡ done_in text.now }
{
    match cut(text) {
        None => Some(Answer::Done {
            place: None,
            result: result_of_word(text)?,
        }),
        Some((head, rest)) => done_behind(head, rest, room),
    }
}

fn place_of(word: &[u8]) -> Option<u8>
    ensures { result ≡ place_in word.now }
{
    Some(number_to(u8::MAX as u64, word)? as u8)
}

fn done_behind<'a>(head: &[u8], rest: &[u8], room: &'a mut [u8]) -> Option<Answer<'a>>
    requires { length rest.now ≤ length room.old }
    ensures { option_map plain_answer result ≡ done_after head.now rest.now (place_in head.now) }
{
    match place_of(head) {
        None => Some(Answer::Done {
            place: None,
            result: result_behind(head, rest, room)?,
        }),
        Some(place) => placed(place, head, rest, room),
    }
}

/// What follows `done` where it begins with a number, which is a place, or else the size of bytes.
fn placed<'a>(place: u8, head: &[u8], rest: &[u8], room: &'a mut [u8]) -> Option<Answer<'a>>
    requires { length rest.now ≤ length room.old }
    ensures { option_map plain_answer result ≡ placed_by place head.now rest.now (cut_at 32 rest.now) }
{
    match cut(rest) {
        None => {
            if let Some((size, bytes)) = whole_bytes(head, rest, room) {
                return Some(Answer::Done {
                    place: None,
                    result: Told::Bytes { size, bytes },
                });
            }
            Some(Answer::Done {
                place: Some(place),
                result: result_of_word(rest)?,
            })
        }
        Some((first, second)) => Some(Answer::Done {
            place: Some(place),
            result: result_behind(first, second, room)?,
        }),
    }
}

fn result_of_word<'a>(word: &[u8]) -> Option<Told<'a>>
    ensures { option_map result_of_told result ≡ result_word word.now }
{
    if let Some(address) = count_of(word) {
        return Some(Told::Address(address));
    }
    if word == b"accepted".as_slice() {
        return Some(Told::Accepted);
    }
    Some(Told::Ended(refusal_of(word)?))
}

fn result_behind<'a>(head: &[u8], rest: &[u8], room: &'a mut [u8]) -> Option<Told<'a>>
    requires { length rest.now ≤ length room.old }
    ensures { option_map result_of_told result ≡ result_after head.now rest.now }
{
    if head == b"rejected".as_slice() {
        return Some(Told::Rejected(reason_of(rest)?));
    }
    let (size, bytes) = if head == b"truncated".as_slice() {
        cut_bytes(rest, room)?
    } else {
        whole_bytes(head, rest, room)?
    };
    Some(Told::Bytes { size, bytes })
}

/// Returns a size and the bytes behind it, if they are fewer.
fn cut_bytes<'a>(text: &[u8], room: &'a mut [u8]) -> Option<(u32, &'a [u8])>
    requires { length text.now ≤ length room.old }
    ensures { option_map (λ x. (x.0, x.1.now)) result ≡ cut_in text.now }
{
    let (size, spelled) = cut(text)?;
    let size = count_of(size)?;
    let bytes = bytes_of(spelled, room)?;
    if bytes.len() < size as usize {
        Some((size, bytes))
    } else {
        None
    }
}

/// Returns a size and bytes, if they are no fewer.
fn whole_bytes<'a>(size: &[u8], spelled: &[u8], room: &'a mut [u8]) -> Option<(u32, &'a [u8])>
    requires { length spelled.now ≤ length room.old }
    ensures { option_map (λ x. (x.0, x.1.now)) result ≡ whole_in size.now spelled.now }
{
    let size = count_of(size)?;
    let bytes = bytes_of(spelled, room)?;
    if bytes.len() < size as usize {
        None
    } else {
        Some((size, bytes))
    }
}
