//! The journals of a report, one behind the other.

ghost use Rattle.std.specs.Prelude.{◌≡◌, ◌++◌, ◌∷◌, [], ℕ, IfOk, OnOk, drop, map};
ghost use Rattle.report_text.specs.JournalRead.{journals_at};
ghost use Rattle.report_text.specs.ScenarioPart.{rest as rest_at};
ghost use Rattle.report_text.specs.TextLines.{lines_in};
ghost use Rattle.report_text.specs.Texts.{lines_behind};
ghost use Rattle.report_view.specs.Journals.{in_report, in_view};

use board_model::DomainLine;
use mc_base::NoMemory;
use report_text::{JournalLines, cut, next_line};
use std::alloc::Global;

/// Counts the lines of the journal at the front of a text, and returns the text behind them.
fn pass_journal(text: &[u8]) -> (u32, &[u8])
    ensures { lines_in result.1.now ≡ lines_behind text.now }
{
    let mut lines: u32 = 0;
    let mut rest = text;
    while let Some((_, after)) = next_line(rest) {
        lines = lines.saturating_add(1);
        rest = after;
    }
    (lines, rest)
}

/// Passes over the line that heads a journal.
fn behind_heading(text: &[u8]) -> &[u8]
    ensures { lines_in result.now ≡ drop 1 (lines_in text.now) }
{
    match cut(b'\n', text) {
        Some((_, rest)) => rest,
        None => &[],
    }
}

/// Adds a journal.
fn add<'a>(journals: &mut Vec<JournalLines<'a>>, journal: JournalLines<'a>) -> Result<(), NoMemory>
    ensures { OnOk result (journals.new.items ≡ journals.old.items ++ journal.entry ∷ []) }
{
    if journals.push(journal).is_err() {
        return Err(NoMemory);
    }
    Ok(())
}

/// Adds the journals of these domains, which stand in a text that begins with the line of this number.
fn add_journals<'a>(
    journals: &mut Vec<JournalLines<'a>>,
    domains: &[DomainLine],
    number: u32,
    text: &'a [u8],
) -> Result<(), NoMemory>
    ensures { OnOk result ((n : ℕ) → map in_view journals.new.items ≡ map in_view journals.old.items ++ map in_report (journals_at domains.now (rest_at n (lines_in text.now)))) }
{
    let [line, others @ ..] = domains else {
        return Ok(());
    };
    let entries = behind_heading(text);
    let journal = JournalLines {
        domain: line.domain,
        number: number.saturating_add(1),
        text: entries,
    };
    add(journals, journal)?;
    let (lines, behind) = pass_journal(entries);
    let next = journal.number.saturating_add(lines);
    add_journals(journals, others, next, behind)
}

/// Returns the journals of these domains, which stand in a text that begins with the line of this number.
pub fn journals_of<'a>(
    alloc: Global,
    domains: &[DomainLine],
    number: u32,
    text: &'a [u8],
) -> Result<Vec<JournalLines<'a>>, NoMemory>
    ensures { IfOk result (λ journals. (n : ℕ) → map in_view journals.items ≡ map in_report (journals_at domains.now (rest_at n (lines_in text.now)))) }
{
    let mut journals = Vec::new(alloc);
    add_journals(&mut journals, domains, number, text)?;
    Ok(journals)
}
