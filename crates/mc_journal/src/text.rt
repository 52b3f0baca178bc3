//! The text of a journal: a line for each entry.

ghost use Rattle.std.specs.Prelude.{◌≡◌, ◌++◌, ◌∷◌, [], codes, decimal, length, nat_lt, if◌then◌else◌};
ghost use Rattle.mc_base.specs.Text.{hex_text};
ghost use Rattle.outer_io.specs.Puts.{Puts};
ghost use Rattle.board_model.specs.Grammar.{spaced, line_of};
ghost use Rattle.board_model.specs.Journal.{brought, completes};
ghost use Rattle.board_model.specs.Report.{line_text, lines_text, answer_words, result_words};
ghost use Rattle.board_model.specs.Words.{reason_text, fate_text, refusal_text};
ghost use Rattle.mc_journal.specs.Entry.{line_of_entry, plain_answer, result_of_told};
ghost use Rattle.mc_journal.specs.Kept.{IsWithin, kept_line};
ghost use Rattle.mc_journal.specs.LineForms.{form_text, place_front};

use crate::entry::{Answer, Entry, Told};
use crate::forms::{Form, form_word};
use crate::journal::Journal;
use crate::kept::{Kept, bytes_of, told_of};
use crate::words::{fate_word, reason_word, refusal_word};
use mc_base::{Fate, Reason, Refusal};
use outer_io::{Sink, Writer};

/// Puts the lines of a journal, each with its newline. It takes no memory. A write that failed is reported by the writer's `finish`.
pub fn put_entries<K: Sink>(out: &mut Writer<'_, K>, journal: &Journal)
    ensures { Puts K.Sink out.old out.new (lines_text journal.now.lines) }
{
    for at in 0..journal.len() {
        journal.put_at(out, at);
    }
}

/// Puts the line of an entry as it is kept, with its newline.
///
/// It makes no `Entry` of it: LLVM does not join the match that would build one with the match that takes it apart.
pub fn put_kept<K: Sink>(out: &mut Writer<'_, K>, bytes: &[u8], kept: Kept)
    requires { IsWithin (length bytes.now) kept }
    ensures { Puts K.Sink out.old out.new (line_text (kept_line bytes.now kept)) }
{
    match kept {
        Kept::Turn => put_turn(out),
        Kept::Back(peer, count) => put_look(out, Form::Back, peer, count),
        Kept::Put(peer, piece) => put_frame(out, peer, bytes_of(bytes, piece)),
        Kept::See(peer, count) => put_look(out, Form::See, peer, count),
        Kept::Take(peer, piece, fate) => put_take(out, peer, bytes_of(bytes, piece), fate),
        Kept::Idle(turns) => put_idle(out, turns),
        Kept::Again(word) => put_again(out, word),
        Kept::Spin(times, word) => put_spin(out, times, word),
        Kept::WaitStart(number) => put_wait(out, number),
        Kept::Refused(number, word) => put_call(out, number, Answer::Refused(word)),
        Kept::Agreed(number) => put_call(out, number, Answer::Ok),
        Kept::Number(number, n) => put_call(out, number, Answer::Number(n)),
        Kept::Channel(number, request, channel) => {
            put_call(out, number, Answer::Channel { request, channel })
        }
        Kept::Bytes(number, size, piece) => put_call(
            out,
            number,
            Answer::Bytes {
                size,
                bytes: bytes_of(bytes, piece),
            },
        ),
        Kept::Done(number, place, how) => put_call(
            out,
            number,
            Answer::Done {
                place,
                result: told_of(bytes, how),
            },
        ),
    }
}

/// Puts the line of an entry, with its newline.
pub fn put_entry<K: Sink>(out: &mut Writer<'_, K>, entry: Entry<'_>)
    ensures { Puts K.Sink out.old out.new (line_text (line_of_entry entry.entry)) }
{
    match entry {
        Entry::Turn => put_turn(out),
        Entry::Back { peer, count } => put_look(out, Form::Back, peer, count),
        Entry::Put { peer, frame } => put_frame(out, peer, frame),
        Entry::See { peer, count } => put_look(out, Form::See, peer, count),
        Entry::Take { peer, frame, fate } => put_take(out, peer, frame, fate),
        Entry::Idle { turns } => put_idle(out, turns),
        Entry::Again { word } => put_again(out, word),
        Entry::Spin { times, word } => put_spin(out, times, word),
        Entry::WaitStart { number } => put_wait(out, number),
        Entry::Called { number, answer } => put_call(out, number, answer),
    }
}

/// Puts the word of a form, and a blank.
#[inline(always)]
fn put_head<K: Sink>(out: &mut Writer<'_, K>, form: Form)
    ensures { Puts K.Sink out.old out.new (form_text form ++ 32 ∷ []) }
{
    out.put(form_word(form));
    out.put(b" ");
}

fn put_turn<K: Sink>(out: &mut Writer<'_, K>)
    ensures { Puts K.Sink out.old out.new (line_of (codes "turn" ∷ [])) }
{
    out.put(form_word(Form::Turn));
    out.put(b"\n");
}

fn put_idle<K: Sink>(out: &mut Writer<'_, K>, turns: u64)
    ensures { Puts K.Sink out.old out.new (line_of (codes "idle" ∷ decimal turns ∷ [])) }
{
    put_head(out, Form::Idle);
    out.put_number(turns);
    out.put(b"\n");
}

fn put_again<K: Sink>(out: &mut Writer<'_, K>, word: Refusal)
    ensures { Puts K.Sink out.old out.new (line_of (codes "again" ∷ refusal_text word ∷ [])) }
{
    put_head(out, Form::Again);
    out.put(refusal_word(word));
    out.put(b"\n");
}

fn put_spin<K: Sink>(out: &mut Writer<'_, K>, times: u64, word: Refusal)
    ensures { Puts K.Sink out.old out.new (line_of (codes "spin" ∷ decimal times ∷ refusal_text word ∷ [])) }
{
    put_head(out, Form::Spin);
    out.put_number(times);
    out.put(b" ");
    out.put(refusal_word(word));
    out.put(b"\n");
}

fn put_wait<K: Sink>(out: &mut Writer<'_, K>, number: u32)
    ensures { Puts K.Sink out.old out.new (line_of (codes "wait" ∷ decimal number ∷ [])) }
{
    put_head(out, Form::Wait);
    out.put_number(number as u64);
    out.put(b"\n");
}

/// Puts the line of a look: its form, the peer and what was shown.
fn put_look<K: Sink>(out: &mut Writer<'_, K>, form: Form, peer: u8, count: u32)
    ensures { Puts K.Sink out.old out.new ((form_text form ++ 32 ∷ []) ++ (decimal peer ++ (32 ∷ (decimal count ++ (10 ∷ []))))) }
{
    put_head(out, form);
    out.put_number(peer as u64);
    out.put(b" ");
    out.put_number(count as u64);
    out.put(b"\n");
}

fn put_frame<K: Sink>(out: &mut Writer<'_, K>, peer: u8, frame: &[u8])
    ensures { Puts K.Sink out.old out.new (line_of (codes "put" ∷ decimal peer ∷ hex_text frame.now ∷ [])) }
{
    put_head(out, Form::Put);
    out.put_number(peer as u64);
    out.put(b" ");
    out.put_hex(frame);
    out.put(b"\n");
}

fn put_take<K: Sink>(out: &mut Writer<'_, K>, peer: u8, frame: &[u8], fate: Fate)
    ensures { Puts K.Sink out.old out.new (line_of (codes "take" ∷ decimal peer ∷ hex_text frame.now ∷ fate_text fate ∷ [])) }
{
    put_head(out, Form::Take);
    out.put_number(peer as u64);
    out.put(b" ");
    out.put_hex(frame);
    out.put(b" ");
    out.put(fate_word(fate));
    out.put(b"\n");
}

fn put_call<K: Sink>(out: &mut Writer<'_, K>, number: u32, answer: Answer<'_>)
    ensures { Puts K.Sink out.old out.new (line_of (codes "call" ∷ decimal number ∷ answer_words (plain_answer answer.entry))) }
{
    put_head(out, Form::Call);
    out.put_number(number as u64);
    out.put(b" ");
    put_answer(out, answer);
    out.put(b"\n");
}

fn put_answer<K: Sink>(out: &mut Writer<'_, K>, answer: Answer<'_>)
    ensures { Puts K.Sink out.old out.new (spaced (answer_words (plain_answer answer.entry))) }
{
    match answer {
        Answer::Refused(word) => out.put(refusal_word(word)),
        Answer::Ok => out.put(b"ok"),
        Answer::Number(n) => put_ok_number(out, n),
        Answer::Channel { request, channel } => put_channel(out, request, channel),
        Answer::Bytes { size, bytes } => put_bytes(out, size, bytes),
        Answer::Done { place, result } => put_done(out, place, result),
    }
}

/// Puts how a request ended, and its place where it has one.
fn put_done<K: Sink>(out: &mut Writer<'_, K>, place: Option<u8>, told: Told<'_>)
    ensures { Puts K.Sink out.old out.new (spaced (answer_words (completes place (result_of_told told.entry)))) }
{
    out.put(b"done ");
    put_place(out, place);
    put_result(out, told);
}

/// Puts a place and a blank.
fn put_place<K: Sink>(out: &mut Writer<'_, K>, place: Option<u8>)
    ensures { Puts K.Sink out.old out.new (place_front place) }
{
    if let Some(place) = place {
        out.put_number(place as u64);
        out.put(b" ");
    }
}

fn put_result<K: Sink>(out: &mut Writer<'_, K>, told: Told<'_>)
    ensures { Puts K.Sink out.old out.new (spaced (result_words (result_of_told told.entry))) }
{
    match told {
        Told::Address(address) => out.put_number(address as u64),
        Told::Accepted => out.put(b"accepted"),
        Told::Rejected(reason) => put_rejected(out, reason),
        Told::Bytes { size, bytes } => put_brought(out, size, bytes),
        Told::Ended(word) => out.put(refusal_word(word)),
    }
}

fn put_rejected<K: Sink>(out: &mut Writer<'_, K>, reason: Reason)
    ensures { Puts K.Sink out.old out.new (spaced (codes "rejected" ∷ reason_text reason ∷ [])) }
{
    out.put(b"rejected ");
    out.put(reason_word(reason));
}

/// A size and bytes: truncated where there are fewer bytes than the size.
fn put_brought<K: Sink>(out: &mut Writer<'_, K>, size: u32, bytes: &[u8])
    ensures { Puts K.Sink out.old out.new (spaced (result_words (brought size bytes.now))) }
{
    out.put(cut_word(size, bytes));
    put_sized(out, size, bytes);
}

/// The word, with a blank, of bytes that are fewer than the size.
fn cut_word(size: u32, bytes: &[u8]) -> &'static [u8]
    ensures { result.now ≡ (if nat_lt (length bytes.now) size then codes "truncated " else []) }
{
    if bytes.len() < size as usize {
        b"truncated "
    } else {
        b""
    }
}

fn put_sized<K: Sink>(out: &mut Writer<'_, K>, size: u32, bytes: &[u8])
    ensures { Puts K.Sink out.old out.new (spaced (decimal size ∷ hex_text bytes.now ∷ [])) }
{
    out.put_number(size as u64);
    out.put(b" ");
    out.put_hex(bytes);
}

fn put_ok_number<K: Sink>(out: &mut Writer<'_, K>, n: u64)
    ensures { Puts K.Sink out.old out.new (spaced (codes "ok" ∷ decimal n ∷ [])) }
{
    out.put(b"ok ");
    out.put_number(n);
}

fn put_channel<K: Sink>(out: &mut Writer<'_, K>, request: u64, channel: u32)
    ensures { Puts K.Sink out.old out.new (spaced (codes "ok" ∷ decimal request ∷ decimal channel ∷ [])) }
{
    out.put(b"ok ");
    out.put_number(request);
    out.put(b" ");
    out.put_number(channel as u64);
}

/// A size and bytes: truncated where there are fewer bytes than the size.
fn put_bytes<K: Sink>(out: &mut Writer<'_, K>, size: u32, bytes: &[u8])
    ensures { Puts K.Sink out.old out.new (spaced ((if nat_lt (length bytes.now) size then codes "truncated" else codes "ok") ∷ decimal size ∷ hex_text bytes.now ∷ [])) }
{
    out.put(bytes_word(size, bytes));
    out.put(b" ");
    put_sized(out, size, bytes);
}

fn bytes_word(size: u32, bytes: &[u8]) -> &'static [u8]
    ensures { result.now ≡ (if nat_lt (length bytes.now) size then codes "truncated" else codes "ok") }
{
    if bytes.len() < size as usize {
        b"truncated"
    } else {
        b"ok"
    }
}
