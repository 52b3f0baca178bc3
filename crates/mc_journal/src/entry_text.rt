//! The text of one entry, written to a sink.

ghost use Rattle.std.specs.Prelude.{◌≤◌, ℕ, IsOk, OnErr, length};
ghost use Rattle.outer_io.specs.Faults.{HasCause};
ghost use Rattle.outer_io.specs.Writes.{Writes, WritesStop};
ghost use Rattle.mc_journal.specs.EntryText.{entry_text};

use crate::entry::Entry;
use crate::text::put_entry;
use outer_io::{Failed, Sink, Writer};

/// Writes the line of an entry, with its newline, as in docs/FORMATS.md, "Journal text". It takes no memory.
///
/// # Errors
///
/// `Failed` where a write failed, which is then the last: the sink's count of faults rose, and a proper prefix of the line was
/// written.
pub fn write_entry<K: Sink>(entry: &Entry<'_>, sink: &mut K) -> Result<(), Failed>
    ensures bytes { Writes (K.written sink.old) (K.written sink.new) result (entry_text entry.now) }
    ensures cause { HasCause (K.faults sink.old) (K.faults sink.new) result }
    ensures room { (n : ℕ) → K.takes sink.old n → length (entry_text entry.now) ≤ n → IsOk result }
    ensures few_writes_at_err { OnErr result (WritesStop (K.written sink.old) (K.written sink.new) (K.calls sink.old) (K.calls sink.new) (entry_text entry.now)) }
{
    let mut out = Writer::new(sink);
    put_entry(&mut out, *entry);
    out.finish()
}
