//! Laws of entries, as contracts of public functions.

ghost use Rattle.mc_journal.specs.Entry.{line_of_entry, plain_answer, result_of_told};
ghost use Rattle.mc_journal.specs.EntryText.{AreBytes, FitsAnswer, FitsResult, IsEntryLine};

use crate::entry::{Answer, Entry, Told};

/// Shows that the line of every entry is one of those that `read_entry` reads: its numbers are in range, and its bytes
/// are bytes. It looks at each byte, and changes nothing.
pub fn entries_have_entry_lines(entry: Entry<'_>)
    ensures { IsEntryLine (line_of_entry entry.entry) }
{
    match entry {
        Entry::Turn | Entry::Again { .. } => (),
        Entry::Back { .. } | Entry::See { .. } => (),
        Entry::Put { frame, .. } => look_at(frame),
        Entry::Take { frame, .. } => look_at(frame),
        Entry::Idle { .. } | Entry::Spin { .. } | Entry::WaitStart { .. } => (),
        Entry::Called { answer, .. } => look_at_answer(answer),
    }
}

fn look_at_answer(answer: Answer<'_>)
    ensures { FitsAnswer (plain_answer answer.entry) }
{
    match answer {
        Answer::Refused(_) | Answer::Ok => (),
        Answer::Number(_) | Answer::Channel { .. } => (),
        Answer::Bytes { bytes, .. } => look_at(bytes),
        Answer::Done { result, .. } => look_at_result(result),
    }
}

fn look_at_result(told: Told<'_>)
    ensures { FitsResult (result_of_told told.entry) }
{
    match told {
        Told::Address(_) => (),
        Told::Accepted | Told::Rejected(_) | Told::Ended(_) => (),
        Told::Bytes { bytes, .. } => look_at(bytes),
    }
}

fn look_at(bytes: &[u8])
    ensures { AreBytes bytes.now }
{
    for at in 0..bytes.len() {
        let _byte = bytes[at];
    }
}
