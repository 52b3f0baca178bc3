//! What a domain did for a line of its script.

ghost use Rattle.std.specs.Prelude.{◌<◌, ◌≤◌, IfSome, length};
ghost use Rattle.report_text.specs.Texts.{longest_line};

use report_text::{Outline, next_line};

/// The lines of a journal up to that of a call, behind the call before: the turns and the puts that were made for the call, and the call
/// itself. `behind` follows them.
#[derive(Clone, Copy)]
pub struct Group<'a> {
    /// How many lines they are.
    pub lines: u32,
    /// The number of the call's line in the script, counted from 1, or `None` where the journal ends before a call.
    pub call: Option<u32>,
    /// The call was refused.
    pub refused: bool,
    /// How many frames were taken, by the peers' numbers.
    pub takes: [u32; 8],
    pub behind: &'a [u8],
}

/// Counts one frame more if a line takes one.
fn count_take(takes: &mut [u32; 8], line: Outline) {
    if let Outline::Take { peer } = line {
        let place = usize::from(peer % 8);
        takes[place] = takes[place].saturating_add(1);
    }
}

/// Finds the first group of lines in a text that begins with lines of a journal, or `None` where it does not.
pub fn next_group(text: &[u8]) -> Option<Group<'_>>
    ensures shorter { IfSome result (λ g. length g.behind.now < length text.now) }
    ensures fits { IfSome result (λ g. longest_line g.behind.now ≤ longest_line text.now) }
{
    let (first, after) = next_line(text)?;
    let mut line = first;
    let mut lines: u32 = 1;
    let mut rest = after;
    let mut takes = [0; 8];
    loop {
        count_take(&mut takes, line);
        if let Outline::Call { number, refused } = line {
            return Some(Group {
                lines,
                call: Some(number),
                refused,
                takes,
                behind: rest,
            });
        }
        let Some((next, behind)) = next_line(rest) else {
            return Some(Group {
                lines,
                call: None,
                refused: false,
                takes,
                behind: rest,
            });
        };
        line = next;
        lines = lines.saturating_add(1);
        rest = behind;
    }
}
