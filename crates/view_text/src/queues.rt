//! How many messages, packets and scalars are queued at each endpoint of a domain, as far as its journal shows it.

use board_model::{Call, CallLine};
use mc_base::{Fate, NoMemory};
use mc_journal::{Answer, Entry};
use name_service::{Said, read_frame};

/// An endpoint, and how many items are queued at it.
#[derive(Clone, Copy, Debug)]
pub struct Queue {
    pub node: u8,
    pub port: u16,
    pub address: u32,
    pub count: u32,
}

/// Counts an item more at the endpoint to which a frame goes.
fn add_item(queues: &mut [Queue], frame: &[u8]) {
    if let Said::Sends { dst, .. } = read_frame(frame) {
        for queue in queues.iter_mut() {
            if queue.address == dst {
                queue.count = queue.count.saturating_add(1);
            }
        }
    }
}

/// Takes items off the queue of an endpoint: all, or one.
fn take_items(queues: &mut [Queue], node: u8, port: u16, all: bool) {
    for queue in queues.iter_mut() {
        if queue.node == node && queue.port == port {
            queue.count = if all {
                0
            } else {
                queue.count.saturating_sub(1)
            };
        }
    }
}

/// Adds an endpoint, of which this is the answer of the call that made it.
fn add_queue(
    queues: &mut Vec<Queue>,
    node: u8,
    port: u16,
    answer: &Answer<'_>,
) -> Result<(), NoMemory> {
    let Answer::Number(number) = *answer else {
        return Ok(());
    };
    let queue = Queue {
        node,
        port,
        address: u32::try_from(number).unwrap_or(u32::MAX),
        count: 0,
    };
    if queues.push(queue).is_err() {
        return Err(NoMemory);
    }
    Ok(())
}

/// Notes what a call did that was answered so.
pub fn note_call(
    queues: &mut Vec<Queue>,
    line: &CallLine,
    answer: &Answer<'_>,
) -> Result<(), NoMemory> {
    if matches!(answer, Answer::Refused(_)) {
        return Ok(());
    }
    match line.call {
        Call::Create { port } => add_queue(queues, line.node, port, answer),
        Call::Delete { port } => {
            queues.retain(|queue| queue.node != line.node || queue.port != port);
            Ok(())
        }
        Call::CloseRecv { port } => {
            take_items(queues, line.node, port, true);
            Ok(())
        }
        Call::MsgRecv { port, .. }
        | Call::MsgRecvI { port, .. }
        | Call::PktRecv { port }
        | Call::PktRecvI { port }
        | Call::SclRecv { port, .. } => {
            take_items(queues, line.node, port, false);
            Ok(())
        }
        _ => Ok(()),
    }
}

/// Notes a frame that was taken.
pub fn note_take(queues: &mut [Queue], entry: Entry<'_>) {
    if let Entry::Take {
        frame,
        fate: Fate::Queued,
        ..
    } = entry
    {
        add_item(queues, frame);
    }
}
