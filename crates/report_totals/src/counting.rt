//! Counts the entries of a journal in a text.

ghost use Rattle.std.specs.Prelude.{◌≡◌, ◌≤◌, List, length, map};
ghost use Rattle.board_model.specs.Journal.{Line};
ghost use Rattle.board_numbers.specs.Counts.{AreCounts};
ghost use Rattle.board_numbers.specs.ItemCounts.{CountsLines, EachWith};
ghost use Rattle.report_text.specs.CountedLines.{counted_line, lines_counted};
ghost use Rattle.report_text.specs.Texts.{longest_line};
ghost use Rattle.report_totals.specs.Counting.{CountsDeleted};

use crate::deletes::deleted_by;
use board_numbers::{Counts, ItemCounts, count_items};
use report_text::next_entry;

/// What the entries of a journal come to: how many frames were put and taken and how many messages these brought, and how many messages
/// the domain's deletes dropped.
#[derive(Clone, Copy)]
pub struct JournalCounts {
    pub counts: Counts,
    pub deleted: u64,
}

/// Counts the entries of the journal of the domain of this number, each once; what became of the items of channels is added for all
/// domains. `deletes` says which lines of the domain's script delete an endpoint, and `room` is as long as the longest line.
pub fn count_entries(
    all: &mut [ItemCounts],
    own: u8,
    deletes: &[bool],
    text: &[u8],
    room: &mut [u8],
) -> JournalCounts
    requires fits { longest_line text.now ≤ length room.old }
    ensures counts { (lines : List Line) → map counted_line lines ≡ lines_counted text.now → AreCounts result.counts lines }
    ensures deleted { (lines : List Line) → map counted_line lines ≡ lines_counted text.now → CountsDeleted deletes.now lines result.deleted }
    ensures items { (lines : List Line) → map counted_line lines ≡ lines_counted text.now → EachWith (CountsLines own lines) all.old all.new }
{
    let mut counts = Counts::new();
    let mut deleted: u64 = 0;
    let mut closing = None;
    let mut rest = text;
    while let Some((entry, after)) = next_entry(rest, room) {
        counts.count_entry(entry);
        deleted = deleted.saturating_add(deleted_by(deletes, entry));
        closing = count_items(all, own, closing, entry);
        rest = after;
    }
    JournalCounts { counts, deleted }
}
