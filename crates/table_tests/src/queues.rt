ghost use Rattle.std.specs.Prelude.{◌≡◌, IfSome, length};

use mc_base::{NoMemory, Priority, Slot};
use message_queue::{MessageQueue, may_cross_threads};
use std::alloc::Global;
use std::test::Fail;

fn slot(buffer: u16) -> Slot {
    Slot { peer: 3, buffer }
}

/// A queue with room for four, and full: buffers 0 to 3 of peer 3 with these priorities, pushed in this order.
fn full_queue(alloc: Global, priorities: [u8; 4]) -> Option<MessageQueue>
    ensures room { IfSome result (λ q. q.room ≡ 4) }
    ensures full { IfSome result (λ q. length q.waiting ≡ 4) }
{
    let [a, b, c, d] = priorities;
    let a = Priority::new(a)?;
    let b = Priority::new(b)?;
    let c = Priority::new(c)?;
    let d = Priority::new(d)?;
    let mut queue = MessageQueue::new(alloc, 4).ok()?;
    queue.push(slot(0), a);
    queue.push(slot(1), b);
    queue.push(slot(2), c);
    queue.push(slot(3), d);
    Some(queue)
}

/// The buffer and the priority of what is taken.
fn best_of(queue: &mut MessageQueue) -> Option<(u16, u8)> {
    let (slot, priority) = queue.pop_best()?;
    Some((slot.buffer, priority.number()))
}

/// The priorities of buffers 0 to 3, and what is taken in this order.
type Row = ([u8; 4], [(u16, u8); 4]);

const ORDERS: [Row; 5] = [
    ([2, 0, 1, 0], [(1, 0), (3, 0), (2, 1), (0, 2)]),
    ([1, 1, 1, 1], [(0, 1), (1, 1), (2, 1), (3, 1)]),
    ([3, 2, 1, 0], [(3, 0), (2, 1), (1, 2), (0, 3)]),
    ([0, 1, 2, 3], [(0, 0), (1, 1), (2, 2), (3, 3)]),
    ([3, 0, 3, 0], [(1, 0), (3, 0), (0, 3), (2, 3)]),
];

/// Whether just these are taken, in this order.
fn are_taken(queue: &mut MessageQueue, order: &[(u16, u8)]) -> bool {
    for due in order {
        if best_of(queue) != Some(*due) {
            return false;
        }
    }
    best_of(queue).is_none()
}

/// Whether a row's order is that of its priorities.
fn is_order(alloc: Global, (priorities, order): &Row) -> Option<bool> {
    let mut queue = full_queue(alloc, *priorities)?;
    Some(are_taken(&mut queue, order))
}

#[test]
fn the_oldest_of_the_best_priority_comes_first(rt: HostRuntime) -> Result<(), Fail> {
    for (i, row) in ORDERS.iter().enumerate() {
        assert!(rt; is_order(rt.alloc(), row).ok_or("memory")?, "row {i}");
    }
    Ok(())
}

/// Whether this buffer is the oldest of so many.
fn is_front(queue: &MessageQueue, buffer: u16, count: u32) -> bool {
    queue.front() == Some(slot(buffer)) && queue.len() == count
}

/// The same, and it is taken.
fn is_oldest(queue: &mut MessageQueue, buffer: u16, count: u32) -> bool {
    is_front(queue, buffer, count) && queue.pop_oldest() == Some(slot(buffer))
}

/// Whether buffers 0 to 3 are taken in this order, each as the oldest.
fn are_oldest(queue: &mut MessageQueue) -> bool {
    for buffer in 0..4 {
        if !is_oldest(queue, buffer, 4 - u32::from(buffer)) {
            return false;
        }
    }
    queue.pop_oldest().is_none()
}

#[test]
fn the_oldest_is_taken_whatever_its_priority(rt: HostRuntime) -> Result<(), Fail> {
    let mut queue = full_queue(rt.alloc(), [2, 0, 1, 0]).ok_or("memory")?;
    assert!(rt; are_oldest(&mut queue));
    Ok(())
}

#[test]
fn front_stays(rt: HostRuntime) -> Result<(), Fail> {
    let queue = full_queue(rt.alloc(), [3, 0, 0, 0]).ok_or("memory")?;
    assert!(rt; is_front(&queue, 0, 4));
    assert!(rt; is_front(&queue, 0, 4));
    Ok(())
}

/// Whether a new queue with room for so many is empty, and stays so where nothing is taken.
fn is_empty_at_first(alloc: Global, slots: u32) -> Result<bool, NoMemory> {
    let mut queue = MessageQueue::new(alloc, slots)?;
    Ok(
        queue.len() == 0
            && queue.is_empty()
            && queue.front().is_none()
            && queue.pop_oldest().is_none()
            && best_of(&mut queue).is_none(),
    )
}

#[test]
fn a_new_queue_is_empty(rt: HostRuntime) -> Result<(), Fail> {
    for slots in [0, 1, 256] {
        assert!(rt; is_empty_at_first(rt.alloc(), slots)?, "{slots}");
    }
    may_cross_threads();
    Ok(())
}

/// Pushes the oldest of a full queue once more, last and with the worst priority.
fn push_again(queue: &mut MessageQueue) -> Option<()>
    requires { length queue.old.waiting ≡ queue.old.room }
{
    let worst = Priority::new(3)?;
    let oldest = queue.pop_oldest()?;
    queue.push(oldest, worst);
    Some(())
}

#[test]
fn room_comes_back(rt: HostRuntime) -> Result<(), Fail> {
    let mut queue = full_queue(rt.alloc(), [0, 1, 1, 1]).ok_or("memory")?;
    push_again(&mut queue).ok_or("empty")?;
    assert!(rt; are_taken(&mut queue, &[(1, 1), (2, 1), (3, 1), (0, 3)]));
    Ok(())
}
