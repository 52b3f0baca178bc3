//! A queue of messages, in cells that are linked by index.

ghost use Rattle.std.specs.Prelude.{◌≡◌, ◌≤◌, ◌<◌, ◌+◌, ◌==◌, ◌↔◌, [], IfOk, IfSome, IsNone, Some, length, option_map, option_to_list};
ghost use Rattle.board_model.specs.Choice.{best, oldest};
ghost use Rattle.message_queue.specs.Queue.{waiting, empty_queue, pushed, popped_best, popped_oldest};

use crate::cells::Cells;
use crate::entry::Entry;
use mc_base::{NoMemory, Priority, Slot};
use std::alloc::Global;
use std::marker::Model;

/// The messages that wait at one endpoint, each by the slot of its buffer and with its priority, the oldest first.
///
/// A channel's queue is one too; there each item has priority 0.
#[derive(Debug, Drop)]
pub struct MessageQueue {
    cells: Cells,
}

impl Model for MessageQueue {
    ghost use Rattle.message_queue.specs.Queue.{Queue};

    ghost Value = { Queue };

    ghost use Rattle.message_queue.specs.InQueue.{queue_of};
    ghost use Rattle.message_queue.specs.Cells.{IsSound};

    ghost view = { queue_of };

    ghost invariant = { λ q. IsSound q.cells };
}

impl MessageQueue {
    /// Makes an empty queue with room for so many messages.
    ///
    /// # Errors
    ///
    /// `NoMemory` where the room cannot be reserved.
    pub fn new(alloc: Global, slots: u32) -> Result<MessageQueue, NoMemory>
        ensures { IfOk result (λ q. q ≡ empty_queue slots) }
    {
        Ok(MessageQueue {
            cells: Cells::new(alloc, slots)?,
        })
    }

    /// Queues a message last. The queue must not be full.
    pub fn push(&mut self, slot: Slot, priority: Priority)
        requires room { length self.old.waiting < self.old.room }
        ensures last { self.new ≡ pushed self.old (waiting slot priority) }
    {
        self.cells.append(Entry { slot, priority });
    }

    /// Takes the oldest message of the best priority. The rest stays in order. `None` exactly where none waits; nothing
    /// changes then.
    pub fn pop_best(&mut self) -> Option<(Slot, Priority)>
        ensures none { IsNone result ↔ (self.old.waiting ≡ []) }
        ensures best { IfSome result (λ r. best (λ w. w.priority) self.old.waiting ≡ Some (waiting r.0 r.1)) }
        ensures rest { self.new ≡ popped_best self.old }
        ensures unchanged { IsNone result → self.new ≡ self.old }
        ensures one_less { length self.new.waiting + length (option_to_list result) ≡ length self.old.waiting }
    {
        let place = self.cells.best()?;
        let (slot, priority) = self.cells.take(place);
        Some((slot, priority))
    }

    /// Takes the oldest message of any priority. `None` exactly where none waits; nothing changes then.
    pub fn pop_oldest(&mut self) -> Option<Slot>
        ensures none { IsNone result ↔ (self.old.waiting ≡ []) }
        ensures oldest { result ≡ option_map (λ w. w.slot) (oldest self.old.waiting) }
        ensures rest { self.new ≡ popped_oldest self.old }
        ensures unchanged { IsNone result → self.new ≡ self.old }
        ensures one_less { length self.new.waiting + length (option_to_list result) ≡ length self.old.waiting }
    {
        let place = self.cells.oldest()?;
        let (slot, _priority) = self.cells.take(place);
        Some(slot)
    }

    /// Returns the oldest message of any priority, which stays, or `None` exactly where none waits.
    pub fn front(&self) -> Option<Slot>
        ensures none { IsNone result ↔ (self.now.waiting ≡ []) }
        ensures oldest { result ≡ option_map (λ w. w.slot) (oldest self.now.waiting) }
    {
        let place = self.cells.oldest()?;
        Some(self.cells.slot(place))
    }

    /// Counts the messages that wait, never more than the queue has room for.
    pub fn len(&self) -> u32
        ensures count { result ≡ length self.now.waiting }
        ensures within { result ≤ self.now.room }
    {
        self.cells.len
    }

    /// Returns whether no message waits.
    pub fn is_empty(&self) -> bool
        ensures { result ≡ (length self.now.waiting == 0) }
    {
        self.cells.len == 0
    }
}
