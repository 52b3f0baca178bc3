//! The journal: what a domain did, entry by entry. Idle turns in a row are joined into one entry, and so are calls that are
//! made again.

ghost use Rattle.std.specs.Prelude.{◌≡◌, ◌≤◌, ◌<◌, ◌+◌, ◌-◌, Some, [], IfOk, OnOk, IsNone, ◌↔◌, length, option_map, slice_get};
ghost use Rattle.board_model.specs.Journal.{Line};
ghost use Rattle.board_model.specs.Report.{line_text};
ghost use Rattle.outer_io.specs.Puts.{Puts};
ghost use Rattle.mc_journal.specs.Entry.{line_of_entry, is_idle_last, bytes_in, noted_entry, IsNotable};
ghost use Rattle.mc_journal.specs.Written.{StaysOrDoubles, byte_places, entry_places};

use crate::entry::Entry;
use crate::kept::{Kept, entry_of, keep, keep_again, keep_idle};
use crate::room::make_room;
use crate::text::put_kept;
use mc_base::NoMemory;
use outer_io::{Sink, Writer};
use std::alloc::Global;
use std::fmt;
use std::marker::Model;

/// What a domain did. Its entries have a fixed size, and the bytes of all of them lie in one array.
#[derive(Drop)]
pub struct Journal {
    entries: Vec<Kept>,
    bytes: Vec<u8>,
}

impl Model for Journal {
    ghost use Rattle.std.specs.Prelude.{map, vec_len, vec_capacity, ◌-◌};
    ghost use Rattle.mc_journal.specs.Written.{Written};

    ghost Value = { Written };

    ghost use Rattle.mc_journal.specs.Kept.{AreWithin, kept_line};

    ghost view = { λ j. record { lines = map (kept_line j.bytes.items) j.entries.items; bytes_held = vec_len j.bytes; entry_room = vec_capacity j.entries - vec_len j.entries; byte_room = vec_capacity j.bytes - vec_len j.bytes } };

    ghost invariant = { λ j. AreWithin j.bytes.items j.entries.items };
}

impl fmt::Debug for Journal {
    fn fmt<W: fmt::Write>(&self, f: &mut fmt::Formatter<W>) -> fmt::Result {
        f.debug_struct("Journal")
            .field("entries", &self.entries.len())
            .finish_non_exhaustive()
    }
}

impl Journal {
    /// Makes a journal without entries and without room. It takes no memory before the first `reserve`, so `NoMemory` does not
    /// occur today.
    pub fn new(alloc: Global) -> Result<Journal, NoMemory>
        ensures lines { IfOk result (λ j. j.lines ≡ []) }
        ensures bytes { IfOk result (λ j. j.bytes_held ≡ 0) }
        ensures room { IfOk result (λ j. (j.entry_room ≡ 0) × (j.byte_room ≡ 0)) }
    {
        Ok(Journal {
            entries: Vec::new(alloc),
            bytes: Vec::new(alloc),
        })
    }

    /// Makes room for `entries` more entries, which hold `bytes` bytes together. The entries stay, and the room never
    /// shrinks. Where there is not enough room, the places for all entries (or bytes) become at least twice as many, so
    /// that reserving before each entry moves each byte a constant number of times.
    ///
    /// # Errors
    ///
    /// `NoMemory` where an allocation fails. The room for entries may have grown then.
    pub fn reserve(&mut self, entries: u32, bytes: u32) -> Result<(), NoMemory>
        ensures lines { self.new.lines ≡ self.old.lines }
        ensures bytes { self.new.bytes_held ≡ self.old.bytes_held }
        ensures entry_room { OnOk result (entries ≤ self.new.entry_room) }
        ensures byte_room { OnOk result (bytes ≤ self.new.byte_room) }
        ensures entry_room_stays { self.old.entry_room ≤ self.new.entry_room }
        ensures byte_room_stays { self.old.byte_room ≤ self.new.byte_room }
        ensures entries_double { StaysOrDoubles (entry_places self.old) (entry_places self.new) }
        ensures bytes_double { StaysOrDoubles (byte_places self.old) (byte_places self.new) }
        // It takes no memory where there is room enough.
        ensures entries_stay { entries ≤ self.old.entry_room → entry_places self.new ≡ entry_places self.old }
        ensures bytes_stay { bytes ≤ self.old.byte_room → byte_places self.new ≡ byte_places self.old }
    {
        make_room(&mut self.entries, entries as usize)?;
        make_room(&mut self.bytes, bytes as usize)?;
        Ok(())
    }

    /// Removes all entries and keeps the room. It takes no memory and frees none.
    pub fn clear(&mut self)
        ensures lines { self.new.lines ≡ [] }
        ensures bytes { self.new.bytes_held ≡ 0 }
        ensures entry_places { entry_places self.new ≡ entry_places self.old }
        ensures byte_places { byte_places self.new ≡ byte_places self.old }
    {
        self.entries.clear();
        self.bytes.clear();
    }

    /// Notes an entry, and copies its bytes once. There must be room for one more entry and for its bytes.
    ///
    /// An idle turn is noted by itself, as `Idle` with `turns` 1, and joins the idle turns of the last entry. A call that is
    /// made again is noted by itself, as `Again`, and never as `Spin`. Where the last entry is one idle turn, the two become
    /// a `Spin`, which joins a `Spin` of the same word directly before. A count at the greatest `u64` is not joined further.
    pub fn note(&mut self, entry: Entry<'_>)
        requires entry_room { 0 < self.old.entry_room }
        requires byte_room { bytes_in entry ≤ self.old.byte_room }
        requires notable { IsNotable entry }
        ensures lines { self.new.lines ≡ noted_entry self.old.lines (line_of_entry entry.entry) }
        ensures bytes { self.new.bytes_held ≡ self.old.bytes_held + bytes_in entry.entry }
        ensures entry_places { entry_places self.new ≡ entry_places self.old }
        ensures entry_room { self.old.entry_room ≤ self.new.entry_room + 1 }
        ensures byte_room { self.old.byte_room ≤ self.new.byte_room + bytes_in entry.entry }
    {
        match entry {
            Entry::Idle { .. } => keep_idle(&mut self.entries),
            Entry::Again { word } => keep_again(&mut self.entries, word),
            _ => {
                let kept = keep(&mut self.bytes, entry);
                self.entries.push_reserved(kept);
            }
        }
    }

    /// Returns how many entries there are.
    pub fn len(&self) -> usize
        ensures { result ≡ length self.now.lines }
    {
        self.entries.len()
    }

    /// Puts the line of the entry at a place, with its newline.
    pub(crate) fn put_at<K: Sink>(&self, out: &mut Writer<'_, K>, at: usize)
        requires { at < length self.now.lines }
        ensures { (line : Line) → slice_get self.now.lines at ≡ Some line → Puts K.Sink out.old out.new (line_text line) }
    {
        put_kept(out, &self.bytes, self.entries[at]);
    }

    /// Whether the last entry is one of idle turns.
    pub fn ends_idle(&self) -> bool
        ensures { result ≡ is_idle_last (slice_get self.now.lines (length self.now.lines - 1)) }
    {
        matches!(self.entries.last(), Some(Kept::Idle(_)))
    }

    /// Returns the entry at a place, counted from 0, or `None` past the end.
    pub fn entry(&self, at: usize) -> Option<Entry<'_>>
        ensures none { IsNone result ↔ (length self.now.lines ≤ at) }
        ensures value { option_map line_of_entry result ≡ slice_get self.now.lines at }
    {
        if at >= self.entries.len() {
            return None;
        }
        Some(entry_of(&self.bytes, self.entries[at]))
    }
}
