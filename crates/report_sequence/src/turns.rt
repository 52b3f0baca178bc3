//! How many turns a wait made.

ghost use Rattle.std.specs.Prelude.{◌≤◌, length};
ghost use Rattle.report_text.specs.Texts.{longest_line};

use mc_journal::Entry;
use report_text::next_entry;

/// Counts the turns of the wait that begins with the line at the front of a text, up to the line of its call.
pub fn turns_of_wait(text: &[u8], room: &mut [u8]) -> u64
    requires { longest_line text.now ≤ length room.old }
{
    let mut turns: u64 = 0;
    let mut rest = text;
    while let Some((entry, after)) = next_entry(rest, room) {
        match entry {
            Entry::Turn => turns = turns.saturating_add(1),
            Entry::Idle { turns: more } => turns = turns.saturating_add(more),
            Entry::Called { .. } => return turns,
            _ => (),
        }
        rest = after;
    }
    turns
}
