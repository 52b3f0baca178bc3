//! The lines of a report's journals that answer calls.

ghost use Rattle.std.specs.Prelude.{◌≡◌, ◌++◌, ◌∷◌, [], IfOk, OnOk, Some, map, option_map};
ghost use Rattle.report_text.specs.JournalRead.{told_texts};
ghost use Rattle.report_text.specs.TextLines.{lines_in};
ghost use Rattle.view_expect.specs.Answers.{answers_of, call_texts, calls_in, is_call as is_a_call, told_answers, when_call};

use crate::lines::first_line;
use mc_base::NoMemory;
use report_text::{cut, next_line};
use report_view::DomainView;
use std::alloc::Global;

/// The lines of a domain's journal that answer calls, in their order, each with its newline.
#[derive(Drop)]
pub struct Answers<'a> {
    pub domain: u8,
    pub lines: Vec<&'a [u8]>,
}

/// Whether a line of a journal answers a call.
fn is_call(line: &[u8]) -> bool
    ensures { result ≡ is_a_call line.now }
{
    let call: &[u8] = b"call";
    match cut(b' ', line) {
        Some((word, _)) => call == word,
        None => false,
    }
}

/// Adds a line if it answers a call.
fn add_line<'a>(lines: &mut Vec<&'a [u8]>, line: &'a [u8]) -> Result<(), NoMemory>
    ensures { OnOk result (call_texts lines.new.items ≡ call_texts lines.old.items ++ when_call line.now) }
{
    if is_call(line) {
        if lines.push(line).is_err() {
            return Err(NoMemory);
        }
    }
    Ok(())
}

/// Returns the lines of the journal at the front of a text that answer calls.
fn call_lines<'a>(alloc: Global, text: &'a [u8]) -> Result<Vec<&'a [u8]>, NoMemory>
    ensures { IfOk result (λ v. call_texts v.items ≡ calls_in (told_texts (lines_in text.now))) }
{
    let mut lines = Vec::new(alloc);
    let mut rest = text;
    while let Some(_) = next_line(rest) {
        let (line, after) = first_line(rest);
        add_line(&mut lines, line)?;
        rest = after;
    }
    Ok(lines)
}

/// Adds the answers of a domain.
fn add_answers<'a>(
    all: &mut Vec<Answers<'a>>,
    domain: u8,
    lines: Vec<&'a [u8]>,
) -> Result<(), NoMemory>
    ensures { OnOk result (map told_answers all.new.items ≡ map told_answers all.old.items ++ told_answers (record { domain = domain; lines = lines.entry }) ∷ []) }
{
    if all.push(Answers { domain, lines }).is_err() {
        return Err(NoMemory);
    }
    Ok(())
}

/// Adds the answers of these domains.
fn add_all<'a>(
    alloc: Global,
    all: &mut Vec<Answers<'a>>,
    domains: &[DomainView<'a>],
) -> Result<(), NoMemory>
    ensures { OnOk result (map told_answers all.new.items ≡ map told_answers all.old.items ++ map answers_of domains.now) }
{
    let [first, others @ ..] = domains else {
        return Ok(());
    };
    let lines = call_lines(alloc, first.journal.text)?;
    add_answers(all, first.journal.domain, lines)?;
    add_all(alloc, all, others)
}

/// Returns the answers of these domains.
pub fn all_answers<'a>(
    alloc: Global,
    domains: &[DomainView<'a>],
) -> Result<Vec<Answers<'a>>, NoMemory>
    ensures { IfOk result (λ all. map told_answers all.items ≡ map answers_of domains.now) }
{
    let mut all = Vec::new(alloc);
    add_all(alloc, &mut all, domains)?;
    Ok(all)
}
