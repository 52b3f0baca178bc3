//! The lines of a journal in a text, as entries.

ghost use Rattle.std.specs.Prelude.{◌≡◌, ◌+◌, ◌-◌, ◌<◌, ◌≤◌, IfSome, drop, option_map, length};
ghost use Rattle.mc_journal.specs.Entry.{line_of_entry};
ghost use Rattle.report_text.specs.CountedLines.{counted_front, counted_line, lines_counted};
ghost use Rattle.report_text.specs.LaneLines.{lane_of, lanes_front, lanes_told};
ghost use Rattle.report_text.specs.SpelledTexts.{FoundLine};
ghost use Rattle.report_text.specs.Texts.{longest_line};

use crate::lines::cut;
use mc_journal::{Entry, entries_have_entry_lines, read_entry, spelled_entry};

/// Returns the entry of the first line of a text, and what follows it, if it is a line of a journal. Its bytes stand in `room`, which is as
/// long as the longest line.
pub fn next_entry<'a, 'r>(text: &'a [u8], room: &'r mut [u8]) -> Option<(Entry<'r>, &'a [u8])>
    requires { longest_line text.now ≤ length room.old }
    ensures lines { lines_counted text.now ≡ counted_front (option_map (λ x. (counted_line (line_of_entry x.0), x.1.now)) result) }
    ensures lanes { lanes_told text.now ≡ lanes_front (option_map (λ x. (lane_of (line_of_entry x.0), x.1.now)) result) }
    ensures shorter { IfSome result (λ x. length x.1.now < length text.now) }
    ensures fits { IfSome result (λ x. longest_line x.1.now ≤ longest_line text.now) }
    ensures behind { IfSome result (λ x. x.1.now ≡ drop (length text.now - length x.1.now) text.now) }
{
    let (line, after) = cut(b'\n', text)?;
    match read_entry(line, room) {
        Ok(entry) => {
            entries_have_entry_lines(entry);
            Some((entry, after))
        }
        Err(_) => None,
    }
}

/// Returns the entry of the first line of a text, with the digits of its bytes as they stand there, and what follows it, if it is a line of a
/// journal.
pub(crate) fn next_spelled<'a>(text: &'a [u8]) -> Option<(Entry<'a>, &'a [u8])>
    ensures found { FoundLine text.now (option_map (λ x. (x.0, x.1.now)) result) }
    ensures shorter { IfSome result (λ x. length x.1.now < length text.now) }
{
    let (line, after) = cut(b'\n', text)?;
    Some((spelled_entry(line)?, after))
}
