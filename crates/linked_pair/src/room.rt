ghost use Rattle.std.specs.Prelude.{◌≡◌, ◌≤◌, OnOk};
ghost use Rattle.mc_journal.specs.Written.{byte_places, entry_places};
ghost use Rattle.domain_core.specs.Room.{call_bytes, call_entries};

use domain_core::{CALL_BYTES, CALL_ENTRIES};
use mc_base::NoMemory;
use mc_journal::Journal;

/// Makes room in a journal for one call of a domain: for 176 entries of 90,112 bytes together. Where there is room enough it
/// takes no memory.
///
/// # Errors
///
/// `NoMemory` where an allocation fails. The entries stay.
pub fn reserve_call(journal: &mut Journal) -> Result<(), NoMemory>
    ensures lines { journal.new.lines ≡ journal.old.lines }
    ensures bytes { journal.new.bytes_held ≡ journal.old.bytes_held }
    ensures entry_room { OnOk result (call_entries ≤ journal.new.entry_room) }
    ensures byte_room { OnOk result (call_bytes ≤ journal.new.byte_room) }
    ensures entry_room_stays { journal.old.entry_room ≤ journal.new.entry_room }
    ensures byte_room_stays { journal.old.byte_room ≤ journal.new.byte_room }
    ensures entries_stay { call_entries ≤ journal.old.entry_room → entry_places journal.new ≡ entry_places journal.old }
    ensures bytes_stay { call_bytes ≤ journal.old.byte_room → byte_places journal.new ≡ byte_places journal.old }
{
    journal.reserve(CALL_ENTRIES, CALL_BYTES)
}
