//! Room in a `Vec`, which doubles where it grows.

ghost use Rattle.std.specs.Prelude.{◌≡◌, ◌≤◌, ◌+◌, OnOk, vec_len, vec_capacity};
ghost use Rattle.mc_journal.specs.Written.{StaysOrDoubles};

use mc_base::NoMemory;

/// Makes room for `more` elements. Where it grows, the capacity at least doubles.
pub fn make_room<T>(items: &mut Vec<T>, more: usize) -> Result<(), NoMemory>
    ensures items { items.new.items ≡ items.old.items }
    ensures len { vec_len items.new ≡ vec_len items.old }
    ensures room { OnOk result (vec_len items.new + more ≤ vec_capacity items.new) }
    ensures doubles { StaysOrDoubles (vec_capacity items.old) (vec_capacity items.new) }
    ensures stays { vec_capacity items.old ≤ vec_capacity items.new }
    ensures enough { vec_len items.old + more ≤ vec_capacity items.old → vec_capacity items.new ≡ vec_capacity items.old }
{
    let capacity = items.capacity();
    let room = capacity - items.len();
    if more <= room {
        return Ok(());
    }
    let wanted = more.max(capacity.saturating_add(room));
    if items.reserve(wanted).is_err() {
        return Err(NoMemory);
    }
    Ok(())
}
