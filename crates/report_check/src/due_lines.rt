//! The lines of a journal that are compared with those that are due.

ghost use Rattle.std.specs.Prelude.{◌≡◌, ◌∷◌, [], ◌++◌, IfOk, IfSome, MatchOption, OnOk, take};
ghost use Rattle.mc_journal.specs.Entry.{line_of_entry};
ghost use Rattle.mc_journal.specs.EntryText.{entry_text};
ghost use Rattle.report_text.specs.SpelledTexts.{IsSpelledText};
ghost use Rattle.report_text.specs.TextLines.{lines_in};
ghost use Rattle.report_check.specs.Meeting.{IsOtherLine, IsOtherText, Meets, place_at_end};

use crate::same_entries::is_same;
use mc_base::NoMemory;
use mc_journal::{Entry, entries_have_entry_lines, write_entry};
use outer_io::{Failed, Sink};
use report_text::{SpelledText, cut};
use std::alloc::Global;
use std::marker::Model;

/// A line in memory. A write fails only where an allocation fails.
#[derive(Drop)]
struct LineSink {
    line: Vec<u8>,
    faults: u64,
}

impl Sink for LineSink {
    ghost use Rattle.std.specs.Prelude.{Some};

    ghost written = { λ s. Some s.line.items };

    ghost faults = { λ s. s.faults };

    fn write(&mut self, piece: &[u8]) -> Result<usize, Failed> {
        if self.line.extend_from_slice(piece).is_err() {
            self.faults = self.faults.saturating_add(1);
            return Err(Failed);
        }
        Ok(piece.len())
    }
}

impl LineSink {
    /// Writes the line of an entry, without its newline, in place of what was written.
    fn set_line(&mut self, entry: Entry<'_>) -> Result<(), NoMemory>
        ensures { OnOk result (entry_text entry.entry ≡ self.new.line.items ++ 10 ∷ []) }
    {
        self.line.clear();
        if write_entry(&entry, self).is_err() {
            return Err(NoMemory);
        }
        self.line.pop();
        Ok(())
    }

    /// Returns what follows the first line of a text, if it is that of an entry. The entry's line is written only where another entry was read,
    /// since two entries may have one text.
    fn behind_entry<'l, 't>(
        &mut self,
        text: SpelledText<'l, 't>,
        entry: Entry<'_>,
    ) -> Result<Option<SpelledText<'l, 't>>, NoMemory>
        requires { IsSpelledText text }
        ensures found { IfOk result (λ found. MatchOption found (IsOtherText (entry_text entry.entry) (lines_in text.entry.text.now)) (λ rest. lines_in text.entry.text.now ≡ entry_text entry.entry ∷ lines_in rest.text.now)) }
        ensures spelled { IfOk result (λ found. IfSome found IsSpelledText) }
    {
        let Some((first, rest)) = text.next() else {
            entries_have_entry_lines(entry);
            return Ok(None);
        };
        if is_same(first, entry) {
            return Ok(Some(rest));
        }
        self.set_line(entry)?;
        match behind_line(text.text, &self.line) {
            Some(_) => Ok(Some(rest)),
            None => Ok(None),
        }
    }
}

/// Returns what follows the first line of a text, if it is this one, which has no newline here.
fn behind_line<'a>(text: &'a [u8], line: &[u8]) -> Option<&'a [u8]>
    ensures { MatchOption result (IsOtherLine line.now (lines_in text.now)) (λ rest. lines_in text.now ≡ (line.now ++ 10 ∷ []) ∷ lines_in rest.now) }
{
    let (first, rest) = cut(b'\n', text)?;
    if first == line { Some(rest) } else { None }
}

/// The lines of a part of a journal that are still to be compared with the lines that are due, and how many of the part's were compared.
#[derive(Drop)]
pub struct DueLines<'l, 't> {
    text: SpelledText<'l, 't>,
    count: usize,
    place: usize,
    due: LineSink,
}

impl<'l, 't> Model for DueLines<'l, 't> {
    ghost use Rattle.std.specs.Prelude.{◌+◌, ◌<◌, ◌^◌, take};
    ghost use Rattle.report_text.specs.SpelledTexts.{IsSpelledText};
    ghost use Rattle.report_text.specs.TextLines.{lines_in};
    ghost use Rattle.report_check.specs.Meeting.{LinesLeft};

    ghost Value = { LinesLeft };

    ghost view = { λ d. record { texts = take d.count (lines_in d.text.text.now); place = d.place } };

    ghost invariant = { λ d. (d.place + d.count < 2 ^ 64) × IsSpelledText d.text };
}

impl<'l, 't> DueLines<'l, 't> {
    /// Begins to compare the first lines of a text, as many as a part of a journal has.
    pub fn new(alloc: Global, text: SpelledText<'l, 't>, count: usize) -> DueLines<'l, 't>
        requires { IsSpelledText text }
        ensures { result ≡ record { texts = take count (lines_in text.entry.text.now); place = 0 } }
    {
        DueLines {
            text,
            count,
            place: 0,
            due: LineSink {
                line: Vec::new(alloc),
                faults: 0,
            },
        }
    }

    /// Compares the next line with that of an entry, which is due. Returns whether they are the same; if so, the next line is the one behind.
    ///
    /// # Errors
    ///
    /// `NoMemory` where an allocation fails.
    pub fn meets(&mut self, entry: Entry<'_>) -> Result<bool, NoMemory>
        ensures { IfOk result (λ is. Meets self.old self.new (line_of_entry entry.entry ∷ []) is) }
    {
        if self.count == 0 {
            return Ok(false);
        }
        match self.due.behind_entry(self.text, entry)? {
            Some(rest) => {
                self.text = rest;
                self.count -= 1;
                self.place += 1;
                Ok(true)
            }
            None => Ok(false),
        }
    }

    /// The place of the next line, counted from the part's first. It is that of the first line which differs, where one did.
    pub fn place(&self) -> usize
        ensures { result ≡ self.now.place }
    {
        self.place
    }

    /// The place of the next line, if there is one: no other line was due.
    pub fn end(&self) -> Option<usize>
        ensures { result ≡ place_at_end self.now }
    {
        if self.count == 0 {
            return None;
        }
        if self.text.text.is_empty() {
            None
        } else {
            Some(self.place)
        }
    }
}
