//! The lines of a journal in a text, read once and kept.

ghost use Rattle.std.specs.Prelude.{◌≡◌, ◌<◌, ◌≤◌, ◌^◌, IfOk, IfSome, length, option_map};
ghost use Rattle.mc_journal.specs.Entry.{line_of_entry};
ghost use Rattle.mc_journal.specs.Spelled.{spelled_line};
ghost use Rattle.report_text.specs.CountedLines.{counted_front, counted_line, lines_counted};
ghost use Rattle.report_text.specs.LaneLines.{lane_of, lanes_front, lanes_told};
ghost use Rattle.report_text.specs.SpelledTexts.{AreSpelled, FoundLine, IsSpelledText};
ghost use Rattle.report_text.specs.Texts.{lines_behind, lines_told, longest_line, told_front};

use crate::entries::next_spelled;
use crate::outline::Outline;
use crate::reading::outline;
use mc_base::NoMemory;
use mc_journal::Entry;
use std::alloc::Global;

/// A line of a journal that was read: its entry, with the digits of its bytes as they stand in the text, and how many bytes the line has with its
/// newline.
#[derive(Clone, Copy, Debug)]
pub struct SpelledLine<'t> {
    pub entry: Entry<'t>,
    pub size: u32,
}

/// A text, and the lines of the journal at its front as they were read.
#[derive(Clone, Copy, Debug)]
pub struct SpelledText<'l, 't> {
    pub text: &'t [u8],
    pub lines: &'l [SpelledLine<'t>],
}

impl<'l, 't> SpelledText<'l, 't> {
    /// Returns the entry of the first line, with the digits of its bytes, and what follows it, if the text begins with a line of a journal.
    pub fn next(self) -> Option<(Entry<'t>, SpelledText<'l, 't>)>
        requires { IsSpelledText self }
        ensures found { FoundLine self.entry.text.now (option_map (λ x. (x.0, x.1.text.now)) result) }
        ensures lanes { lanes_told self.entry.text.now ≡ lanes_front (option_map (λ x. (lane_of (spelled_line (line_of_entry x.0)), x.1.text.now)) result) }
        ensures shorter { IfSome result (λ x. length x.1.text.now < length self.entry.text.now) }
        ensures fits { IfSome result (λ x. longest_line x.1.text.now ≤ longest_line self.entry.text.now) }
        ensures spelled { IfSome result (λ x. IsSpelledText x.1) }
    {
        let [line, lines @ ..] = self.lines else {
            return None;
        };
        let (_, text) = self.text.split_at(line.size as usize);
        Some((line.entry, SpelledText { text, lines }))
    }

    /// Returns the outline of the first line, and what follows it, if the text begins with a line of a journal.
    pub fn next_outline(self) -> Option<(Outline, SpelledText<'l, 't>)>
        requires { IsSpelledText self }
        ensures told { lines_told self.entry.text.now ≡ told_front (option_map (λ x. (x.0, x.1.text.now)) result) }
        ensures shorter { IfSome result (λ x. length x.1.text.now < length self.entry.text.now) }
        ensures fits { IfSome result (λ x. longest_line x.1.text.now ≤ longest_line self.entry.text.now) }
        ensures behind { IfSome result (λ x. lines_behind x.1.text.now ≡ lines_behind self.entry.text.now) }
        ensures spelled { IfSome result (λ x. IsSpelledText x.1) }
    {
        let (entry, after) = self.next()?;
        Some((outline(entry), after))
    }
}

/// Reads the lines of the journal at the front of a text.
///
/// # Errors
///
/// `NoMemory` where an allocation fails.
pub fn spelled_lines<'t>(alloc: Global, text: &'t [u8]) -> Result<Vec<SpelledLine<'t>>, NoMemory>
    requires { length text.now < 2 ^ 32 }
    ensures { IfOk result (λ lines. AreSpelled text.now lines.items) }
{
    let mut lines = Vec::new(alloc);
    let mut rest = text;
    while let Some((entry, after)) = next_spelled(rest) {
        let size = (rest.len() - after.len()) as u32;
        if lines.push(SpelledLine { entry, size }).is_err() {
            return Err(NoMemory);
        }
        rest = after;
    }
    Ok(lines)
}
