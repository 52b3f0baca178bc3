//! A call line: `D.N [label =] [try K] call arguments`.

ghost use Rattle.std.specs.Prelude.{◌≡◌, option_map};
ghost use Rattle.board_model.specs.Forms.{argument_fits, arguments_fit, told_fits, tries_fit, told_at, tries_at};
ghost use Rattle.scenario_lang.specs.Reading.{Answers, Reads, seen, parts_in, tries_in, told_in, call_line_in};
ghost use Rattle.scenario_lang.specs.Parts.{read_parts};

use crate::arguments::call;
use crate::fault::LineFault;
use crate::forms::next;
use crate::groups::label_group;
use crate::kinds::kind_of;
use crate::lines::{caller, name_parts};
use crate::numerals::{is_label, label, number};
use crate::table::{callee_of, row_of};
use board_model::{ArgumentKind, CallLine, Callee, Label, LineReason};
use std::alloc::Global;

/// The parts of a call line, of which each is still a word.
#[derive(Clone, Copy)]
pub(crate) struct CallParts<'w, 'a> {
    pub domain: &'a [u8],
    pub node: &'a [u8],
    pub told: Option<&'a [u8]>,
    pub tries: Option<&'a [u8]>,
    pub callee: Callee,
    pub arguments: &'w [&'a [u8]],
}

/// Takes off the label before a call.
fn told<'w, 'a>(words: &'w [&'a [u8]]) -> (Option<&'a [u8]>, &'w [&'a [u8]])
    ensures { told_at (seen words.now) ≡ (option_map (λ w. w.now) result.0, seen result.1.now) }
{
    match words {
        [word, sign, rest @ ..] if *sign == b"=".as_slice() => (Some(*word), rest),
        _ => (None, words),
    }
}

/// Takes off the number of tries before a call.
fn tries<'w, 'a>(words: &'w [&'a [u8]]) -> (Option<&'a [u8]>, &'w [&'a [u8]])
    ensures { tries_at (seen words.now) ≡ (option_map (λ w. w.now) result.0, seen result.1.now) }
{
    match words {
        [word, number, rest @ ..] if *word == b"try".as_slice() => (Some(*number), rest),
        _ => (None, words),
    }
}

/// Whether there is a label where the call needs one, and no other word in its place.
fn is_told_right(labelled: bool, told: Option<&[u8]>) -> bool
    ensures { result ≡ told_fits labelled (option_map (λ w. w.now) told.entry) }
{
    match told {
        Some(word) => is_label(word),
        None => !labelled,
    }
}

/// Whether the number of tries is left out where the call takes none.
fn is_tried_right(tried: bool, tries: Option<&[u8]>) -> bool
    ensures { result ≡ tries_fit tried (option_map (λ w. w.now) tries.entry) }
{
    tried || tries.is_none()
}

/// Whether a word has the form of an argument.
fn is_argument(kind: ArgumentKind, word: &[u8]) -> bool
    ensures { result ≡ argument_fits kind word.now }
{
    match kind {
        ArgumentKind::Name => name_parts(word).is_some(),
        ArgumentKind::ChannelKind => kind_of(word).is_some(),
        ArgumentKind::RequestLabel | ArgumentKind::PacketLabel => is_label(word),
        ArgumentKind::RequestLabels => label_group(word).is_some(),
        _ => true,
    }
}

/// Whether the words have the form of these arguments.
fn are_arguments(kinds: &[ArgumentKind], words: &[&[u8]]) -> bool
    ensures { result ≡ arguments_fit kinds.now (seen words.now) }
{
    let [kind, kinds @ ..] = kinds else {
        return words.is_empty();
    };
    let [word, words @ ..] = words else {
        return false;
    };
    is_argument(*kind, word) && are_arguments(kinds, words)
}

/// Takes the parts of a call line, whose words must fit a form.
#[tactic(auto, unfolding(crate::specs::Reading::parts_in))]
pub fn call_parts<'w, 'a>(
    first: &'a [u8],
    words: &'w [&'a [u8]],
) -> Result<CallParts<'w, 'a>, LineReason>
    ensures { Reads read_parts result (parts_in first.now (seen words.now)) }
{
    let Some((domain, node)) = caller(first) else {
        return Err(LineReason::Form);
    };
    let (told, rest) = told(words);
    let (tries, rest) = tries(rest);
    let (word, arguments) = next(rest)?;
    let Some(callee) = callee_of(word) else {
        return Err(LineReason::Form);
    };
    let row = row_of(callee);
    if !is_told_right(row.labelled, told)
        || !is_tried_right(row.tried, tries)
        || !are_arguments(row.arguments, arguments)
    {
        return Err(LineReason::Form);
    }
    Ok(CallParts {
        domain,
        node,
        told,
        tries,
        callee,
        arguments,
    })
}

fn tries_of(tries: Option<&[u8]>) -> Result<Option<u32>, LineReason>
    ensures { Reads (λ tries. tries) result (tries_in (option_map (λ w. w.now) tries.entry)) }
{
    let Some(word) = tries else {
        return Ok(None);
    };
    let tries = number(1, 4_294_967_295, word)?;
    Ok(Some(tries as u32))
}

fn label_of(told: Option<&[u8]>) -> Result<Option<Label>, LineReason>
    ensures { Reads (λ label. label) result (told_in (option_map (λ w. w.now) told.entry)) }
{
    let Some(word) = told else {
        return Ok(None);
    };
    let label = label(word)?;
    Ok(Some(label))
}

/// Reads a call line.
#[tactic(auto, unfolding(crate::specs::Reading::call_line_in))]
pub fn call_line(alloc: Global, parts: &CallParts<'_, '_>) -> Result<CallLine, LineFault>
    ensures { Answers (λ line. line) result (call_line_in (read_parts parts.now)) }
{
    let domain = number(0, 7, parts.domain)?;
    let node = number(0, 15, parts.node)?;
    let tries = tries_of(parts.tries)?;
    let label = label_of(parts.told)?;
    let call = call(alloc, parts.callee, parts.arguments)?;
    Ok(CallLine {
        domain: domain as u8,
        node: node as u8,
        label,
        tries,
        call,
    })
}
