//! What waits in a queue.

ghost use Rattle.std.specs.Prelude.{◌≤◌};

use mc_base::{Priority, Slot};

/// A buffer that waits, and the priority of its message.
#[derive(Debug, Drop)]
pub struct Entry {
    pub slot: Slot,
    pub priority: Priority,
    ghost priority_fits: { priority ≤ 3 },
}
