//! A linked queue and a plain list answer the same in long sequences of calls.
ghost use Rattle.std.specs.Prelude.{◌≡◌};

use mc_base::{NoMemory, Priority, Slot};
use message_queue::MessageQueue;
use std::alloc::Global;
use std::collections::VecDeque;
use std::test::Fail;

/// A queue as one list in order of arrival, searched through by each call that takes the best.
#[derive(Drop)]
struct PlainQueue {
    entries: VecDeque<(Slot, Priority)>,
}

impl PlainQueue {
    fn push(&mut self, slot: Slot, priority: Priority) -> bool {
        self.entries.push_back((slot, priority)).is_ok()
    }

    fn pop_best(&mut self) -> Option<(Slot, Priority)> {
        let best = self
            .entries
            .iter()
            .fold(3, |best, (_, priority)| best.min(priority.number()));
        let place = self
            .entries
            .iter()
            .position(|(_, priority)| priority.number() == best)?;
        self.entries.remove(place)
    }

    fn pop_oldest(&mut self) -> Option<Slot> {
        let (slot, _) = self.entries.pop_front()?;
        Some(slot)
    }

    fn front(&self) -> Option<Slot> {
        let (slot, _) = self.entries.front()?;
        Some(*slot)
    }

    fn len(&self) -> usize {
        self.entries.len()
    }
}

/// Queues a message whose slot and priority come from this number, unless there is no room.
fn push_both(queue: &mut MessageQueue, plain: &mut PlainQueue, room: u32, number: u32) -> bool
    requires { queue.old.room ≡ room }
    ensures { queue.new.room ≡ room }
{
    if queue.len() == room {
        return true;
    }
    let slot = Slot {
        peer: (number / 0x1000 % 8) as u8,
        buffer: (number / 0x1_0000 % 256) as u16,
    };
    let Some(priority) = Priority::new((number / 0x800_0000 % 4) as u8) else {
        return false;
    };
    queue.push(slot, priority);
    plain.push(slot, priority)
}

/// Makes the call that this number chooses, a push in so many of eight cases, and returns whether both answer the same.
fn is_same(
    queue: &mut MessageQueue,
    plain: &mut PlainQueue,
    room: u32,
    pushes: u32,
    number: u32,
) -> bool
    requires { queue.old.room ≡ room }
    ensures { queue.new.room ≡ room }
{
    let same = if number / 0x2000_0000 < pushes {
        push_both(queue, plain, room, number)
    } else if number / 0x400_0000 % 2 == 0 {
        queue.pop_best() == plain.pop_best()
    } else {
        queue.pop_oldest() == plain.pop_oldest()
    };
    same && queue.front() == plain.front() && queue.len() as usize == plain.len()
}

/// How many of eight calls push, and so many times the room of the queue this goes on.
const PHASES: [(u32, u32); 5] = [(8, 1), (5, 40), (4, 40), (3, 40), (0, 1)];

/// Whether both answer the same throughout: filled, kept nearly full, half full and nearly empty, and emptied.
fn agree(alloc: Global, room: u32) -> Result<bool, NoMemory> {
    let mut queue = MessageQueue::new(alloc, room)?;
    let mut plain = PlainQueue {
        entries: VecDeque::new(alloc),
    };
    let mut number = room;
    for (pushes, times) in PHASES {
        for _call in 0..room.saturating_mul(times) {
            number = number.wrapping_mul(1_664_525).wrapping_add(1_013_904_223);
            if !is_same(&mut queue, &mut plain, room, pushes, number) {
                return Ok(false);
            }
        }
    }
    Ok(queue.is_empty())
}

#[test]
fn a_queue_answers_as_a_plain_list(rt: HostRuntime) -> Result<(), Fail> {
    for room in [0, 1, 2, 7, 256] {
        assert!(rt; agree(rt.alloc(), room)?, "room {room}");
    }
    Ok(())
}
