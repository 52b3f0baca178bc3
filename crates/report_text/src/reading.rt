//! The lines of a journal in a text, as outlines.

ghost use Rattle.std.specs.Prelude.{◌≡◌, ◌+◌, ◌<◌, ◌≤◌, IfSome, option_map, length};
ghost use Rattle.mc_journal.specs.Entry.{line_of_entry};
ghost use Rattle.report_text.specs.Outlines.{outline_of, outline_in};
ghost use Rattle.report_text.specs.Texts.{lines_told, lines_behind, longest_line, told_front};

use crate::lines::cut;
use crate::outline::Outline;
use mc_journal::{Answer, Entry, spelled_entry};

/// Returns the outline of an entry.
pub(crate) fn outline(entry: Entry<'_>) -> Outline
    ensures { result ≡ outline_of (line_of_entry entry.entry) }
{
    match entry {
        Entry::Turn => Outline::Turn,
        Entry::Back { peer, count } => Outline::Back { peer, count },
        Entry::Put { peer, .. } => Outline::Put { peer },
        Entry::See { peer, count } => Outline::See { peer, count },
        Entry::Take { peer, .. } => Outline::Take { peer },
        Entry::Idle { turns } => Outline::Idle { turns },
        Entry::Again { word } => Outline::Again { word },
        Entry::Spin { times, word } => Outline::Spin { times, word },
        Entry::WaitStart { .. } => Outline::Wait,
        Entry::Called { number, answer } => Outline::Call {
            number,
            refused: matches!(answer, Answer::Refused(_)),
        },
    }
}

/// Reads the outline of a line, without its newline.
fn read_outline(line: &[u8]) -> Option<Outline>
    ensures { result ≡ outline_in line.now }
{
    Some(outline(spelled_entry(line)?))
}

/// Returns the outline of the first line of a text, and what follows it, if it is a line of a journal.
pub fn next_line<'a>(text: &'a [u8]) -> Option<(Outline, &'a [u8])>
    ensures told { lines_told text.now ≡ told_front (option_map (λ x. (x.0, x.1.now)) result) }
    ensures shorter { IfSome result (λ x. length x.1.now < length text.now) }
    ensures fits { IfSome result (λ x. longest_line x.1.now ≤ longest_line text.now) }
    ensures behind { IfSome result (λ x. lines_behind x.1.now ≡ lines_behind text.now) }
{
    let (line, after) = cut(b'\n', text)?;
    Some((read_outline(line)?, after))
}
