//! The next part of a journal, found from the front of its text.

ghost use Rattle.std.specs.Prelude.{◌≡◌, ◌+◌, ◌∷◌, [], ◌<◌, ◌≤◌, ◌^◌, ℕ, IfSome, List, drop, length};
ghost use Rattle.board_model.specs.declared.scenario.CallLine.{CallLine};
ghost use Rattle.report_text.specs.JournalOrder.{puts_claimed, puts_of_head};
ghost use Rattle.report_text.specs.TextLines.{lines_in};
ghost use Rattle.report_text.specs.SpelledTexts.{IsSpelledText};
ghost use Rattle.report_text.specs.TextPass.{puts_of_script};
ghost use Rattle.report_text.specs.Texts.{lines_told};
ghost use Rattle.report_text.specs.TurnOrder.{own_count, puts_last, under_lines};
ghost use Rattle.report_check.specs.NextParts.{BeginsPart, FoundNext};
ghost use Rattle.report_check.specs.PartOutlines.{head_in, part_size};

use report_text::{Outline, SpelledText, is_under, puts_of_line};

/// What heads a part of a journal: so many idle turns, so many tries in a row, another try, a turn, a wait that begins, or a call.
#[derive(Clone, Copy, Debug)]
pub enum Head {
    Idle { turns: u64 },
    Spin { times: u64 },
    Again,
    Turn,
    Wait,
    Call,
}

/// A part of a journal: what heads it, how many lines it has, and the text behind those. The puts of a call stand before it.
#[derive(Clone, Copy, Debug)]
pub struct NextPart<'l, 't> {
    pub head: Head,
    pub lines: usize,
    pub behind: SpelledText<'l, 't>,
}

/// The lines at the front of a text that stand under the line before them: how many there are, how many puts are last among them, and the line
/// of the journal behind them.
#[derive(Clone, Copy)]
struct Under {
    lines: usize,
    puts: usize,
    behind: Option<Outline>,
}

/// Finds the first part of the journal that stands first in a text, or `None` where the text begins with no line of a journal. `puts` has how many frames
/// each line of the script puts where it succeeds.
pub fn next_part<'l, 't>(text: SpelledText<'l, 't>, puts: &[u64]) -> Option<NextPart<'l, 't>>
    requires { IsSpelledText text }
    ensures found { (peers : List ℕ) (script : List CallLine) → puts.now ≡ puts_of_script script → BeginsPart peers script text.entry.text.now → FoundNext peers script text.entry.text.now result }
    ensures spelled { IfSome result (λ part. IsSpelledText part.behind) }
{
    let (first, after) = text.next_outline()?;
    let lines = part_lines(first, after, puts);
    Some(NextPart {
        head: head_of(first),
        lines,
        behind: text_behind(text, lines),
    })
}

/// Returns what heads the part that begins with a line.
fn head_of(first: Outline) -> Head
    ensures { result ≡ head_in first }
{
    match first {
        Outline::Idle { turns } => Head::Idle { turns },
        Outline::Spin { times, .. } => Head::Spin { times },
        Outline::Again { .. } => Head::Again,
        Outline::Turn => Head::Turn,
        Outline::Wait => Head::Wait,
        _ => Head::Call,
    }
}

/// Counts the lines of the part that begins with the line before a text.
fn part_lines(first: Outline, text: SpelledText<'_, '_>, puts: &[u64]) -> usize
    requires { IsSpelledText text }
    ensures { result ≡ part_size puts.now first (lines_told text.entry.text.now) }
{
    match first {
        Outline::Turn => 1 + own_lines(text, puts),
        _ if is_under(first) => 2 + lines_under(text).lines,
        _ => 1,
    }
}

/// Counts the lines at the front of a text that are those of the turn before it.
fn own_lines(text: SpelledText<'_, '_>, puts: &[u64]) -> usize
    requires { IsSpelledText text }
    ensures value { result ≡ own_count (puts_claimed puts.now (lines_told text.entry.text.now)) (under_lines (lines_told text.entry.text.now)) }
    ensures within { result ≤ length text.entry.text.now }
{
    let under = lines_under(text);
    let claimed = claimed_puts(under.behind, puts);
    under.lines - claimed.min(under.puts)
}

/// Counts the put lines before a line that are the line's.
fn claimed_puts(line: Option<Outline>, puts: &[u64]) -> usize
    ensures { result ≡ puts_of_head puts.now line }
{
    match line {
        Some(line) => puts_of_line(puts, line),
        None => 0,
    }
}

/// Reads the lines at the front of a text that stand under the line before them.
fn lines_under(text: SpelledText<'_, '_>) -> Under
    requires { IsSpelledText text }
    ensures lines { result.lines ≡ length (under_lines (lines_told text.entry.text.now)) }
    ensures puts { result.puts ≡ puts_last 0 (under_lines (lines_told text.entry.text.now)) }
    ensures behind { (puts : List ℕ) → puts_of_head puts result.behind ≡ puts_claimed puts (lines_told text.entry.text.now) }
    ensures few { result.puts ≤ result.lines }
    ensures within { result.lines ≤ length text.entry.text.now }
{
    let mut lines = 0;
    let mut puts = 0;
    let mut rest = text;
    while let Some((line, after)) = rest.next_outline() {
        if !is_under(line) {
            return Under {
                lines,
                puts,
                behind: Some(line),
            };
        }
        puts = puts_with(puts, line);
        lines += 1;
        rest = after;
    }
    Under {
        lines,
        puts,
        behind: None,
    }
}

/// Counts the puts that are last among lines, with one line more.
fn puts_with(puts: usize, line: Outline) -> usize
    requires { puts + 1 < 2 ^ 64 }
    ensures value { result ≡ puts_last puts (line ∷ []) }
    ensures few { result ≤ puts + 1 }
{
    if matches!(line, Outline::Put { .. }) {
        puts + 1
    } else {
        0
    }
}

/// Returns what stands behind so many lines of the journal that stands first in a text.
fn text_behind<'l, 't>(text: SpelledText<'l, 't>, lines: usize) -> SpelledText<'l, 't>
    requires { IsSpelledText text }
    ensures lines { lines ≤ length (lines_told text.entry.text.now) → lines_in result.text.now ≡ drop lines (lines_in text.entry.text.now) }
    ensures shorter { lines ≤ length (lines_told text.entry.text.now) → length result.text.now + lines ≤ length text.entry.text.now }
    ensures spelled { IsSpelledText result }
{
    let mut rest = text;
    for _done in 0..lines {
        let Some((_, after)) = rest.next() else {
            return rest;
        };
        rest = after;
    }
    rest
}
