//! Entries of a journal, read from their lines.

ghost use Rattle.std.specs.Prelude.{◌≡◌, ◌≤◌, ◌∷◌, [], ◌++◌, IfOk, IsErr, option_map, length};
ghost use Rattle.board_model.specs.Journal.{Line, taken};
ghost use Rattle.board_model.specs.Report.{line_text};
ghost use Rattle.mc_journal.specs.Entry.{line_of_entry};
ghost use Rattle.mc_journal.specs.EntryText.{IsEntryLine, entry_text};
ghost use Rattle.mc_journal.specs.LineForms.{line_in};
ghost use Rattle.mc_journal.specs.declared.forms.Form.TheVariants as form;
ghost use Rattle.mc_journal.specs.Readers.{peer_in, rest_in, taken_in};

use crate::answers::{answer_of, count_of};
use crate::entry::Entry;
use crate::forms::{Form, form_of, form_word};
use crate::pieces::{bytes_of, cut};
use crate::tables::{fate_of, refusal_of};
use board_model::number_to;
use mc_base::Fate;
use thiserror::Error;

/// A line that is the text of no entry.
#[derive(Clone, Copy, Debug, PartialEq, Eq, Error)]
#[error("the line is no entry of a journal")]
pub struct NotAnEntry;

/// Reads an entry from its line, without the newline. The bytes of a frame or an answer are written to `room`, which is
/// at least as long as the line. It takes no memory.
///
/// The entry's text is the line. Which entry it is, where several have the same text, is left open.
///
/// # Errors
///
/// `NotAnEntry` exactly where the line is the text of no entry (docs/FORMATS.md, "Journal text"): it has none of the
/// forms, a number is beyond the type of its field or has leading zeros, digits of bytes are odd or capital, or blanks are
/// other than one between two words.
pub fn read_entry<'a>(line: &[u8], room: &'a mut [u8]) -> Result<Entry<'a>, NotAnEntry>
    requires { length line.now ≤ length room.old }
    ensures entry { IfOk result (λ e. entry_text e ≡ line.now ++ 10 ∷ []) }
    ensures refused { IsErr result → (l : Line) → IsEntryLine l → line_text l ≡ line.now ++ 10 ∷ [] → ⊥ }
{
    match entry_of(line, room) {
        Some(entry) => Ok(entry),
        None => Err(NotAnEntry),
    }
}

fn entry_of<'a>(line: &[u8], room: &'a mut [u8]) -> Option<Entry<'a>>
    requires { length line.now ≤ length room.old }
    ensures { option_map line_of_entry result ≡ line_in line.now }
{
    match cut(line) {
        None if line == form_word(Form::Turn) => Some(Entry::Turn),
        None => None,
        Some((head, rest)) => entry_behind(form_of(head)?, rest, room),
    }
}

/// Returns the entry of a form, of which a blank and this rest follow the word.
fn entry_behind<'a>(form: Form, rest: &[u8], room: &'a mut [u8]) -> Option<Entry<'a>>
    requires { length rest.now ≤ length room.old }
    ensures { option_map line_of_entry result ≡ rest_in form rest.now }
{
    match form {
        Form::Idle => idle_of(rest),
        Form::Again => again_of(rest),
        Form::Spin => spin_of(rest),
        Form::Turn => None,
        Form::Back => back_of(rest),
        Form::Put => put_of(rest, room),
        Form::See => see_of(rest),
        Form::Take => take_of(rest, room),
        Form::Wait => wait_of(rest),
        Form::Call => call_of(rest, room),
    }
}

fn idle_of<'a>(rest: &[u8]) -> Option<Entry<'a>>
    ensures { option_map line_of_entry result ≡ rest_in form.Idle rest.now }
{
    Some(Entry::Idle {
        turns: number_to(u64::MAX, rest)?,
    })
}

fn again_of<'a>(rest: &[u8]) -> Option<Entry<'a>>
    ensures { option_map line_of_entry result ≡ rest_in form.Again rest.now }
{
    Some(Entry::Again {
        word: refusal_of(rest)?,
    })
}

fn spin_of<'a>(rest: &[u8]) -> Option<Entry<'a>>
    ensures { option_map line_of_entry result ≡ rest_in form.Spin rest.now }
{
    let (times, word) = cut(rest)?;
    Some(Entry::Spin {
        times: number_to(u64::MAX, times)?,
        word: refusal_of(word)?,
    })
}

fn peer_of(word: &[u8]) -> Option<u8>
    ensures { result ≡ peer_in word.now }
{
    Some(number_to(u8::MAX as u64, word)? as u8)
}

fn back_of<'a>(rest: &[u8]) -> Option<Entry<'a>>
    ensures { option_map line_of_entry result ≡ rest_in form.Back rest.now }
{
    let (peer, count) = cut(rest)?;
    Some(Entry::Back {
        peer: peer_of(peer)?,
        count: count_of(count)?,
    })
}

fn put_of<'a>(rest: &[u8], room: &'a mut [u8]) -> Option<Entry<'a>>
    requires { length rest.now ≤ length room.old }
    ensures { option_map line_of_entry result ≡ rest_in form.Put rest.now }
{
    let (peer, frame) = cut(rest)?;
    Some(Entry::Put {
        peer: peer_of(peer)?,
        frame: bytes_of(frame, room)?,
    })
}

fn see_of<'a>(rest: &[u8]) -> Option<Entry<'a>>
    ensures { option_map line_of_entry result ≡ rest_in form.See rest.now }
{
    let (peer, count) = cut(rest)?;
    Some(Entry::See {
        peer: peer_of(peer)?,
        count: count_of(count)?,
    })
}

fn take_of<'a>(rest: &[u8], room: &'a mut [u8]) -> Option<Entry<'a>>
    requires { length rest.now ≤ length room.old }
    ensures { option_map line_of_entry result ≡ rest_in form.Take rest.now }
{
    let (peer, what) = cut(rest)?;
    let peer = peer_of(peer)?;
    let (frame, fate) = taken_of(what, room)?;
    Some(Entry::Take { peer, frame, fate })
}

/// Returns a frame that was taken, and what became of it.
fn taken_of<'a>(text: &[u8], room: &'a mut [u8]) -> Option<(&'a [u8], Fate)>
    requires { length text.now ≤ length room.old }
    ensures { option_map (λ x. taken x.0.now x.1) result ≡ taken_in text.now }
{
    let (frame, fate) = cut(text)?;
    Some((bytes_of(frame, room)?, fate_of(fate)?))
}

fn wait_of<'a>(rest: &[u8]) -> Option<Entry<'a>>
    ensures { option_map line_of_entry result ≡ rest_in form.Wait rest.now }
{
    Some(Entry::WaitStart {
        number: count_of(rest)?,
    })
}

fn call_of<'a>(rest: &[u8], room: &'a mut [u8]) -> Option<Entry<'a>>
    requires { length rest.now ≤ length room.old }
    ensures { option_map line_of_entry result ≡ rest_in form.Call rest.now }
{
    let (number, answer) = cut(rest)?;
    Some(Entry::Called {
        number: count_of(number)?,
        answer: answer_of(answer, room)?,
    })
}
