//! The journal of a domain: what it did, entry by entry, and its text.
//!
//! A journal takes memory where room is reserved in it, and in no other call.
#![tactic(auto)]

mod answers;
mod entry;
mod entry_text;
mod forms;
mod journal;
mod kept;
mod laws;
mod pieces;
mod reading;
mod room;
mod spelled;
mod tables;
mod text;
mod threads;
mod words;

pub use entry::{Answer, Entry, Told};
pub use entry_text::write_entry;
pub use journal::Journal;
pub use laws::entries_have_entry_lines;
pub use reading::{NotAnEntry, read_entry};
pub use spelled::{bytes_spelled, spell_same, spelled_entry, spells};
pub use text::put_entries;
pub use threads::may_cross_threads;
pub use words::{fate_word, reason_word};
