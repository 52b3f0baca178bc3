//! The queue of one endpoint: the buffers that wait there, with their priorities.
//!
//! Buffers are named by their slots; who holds them is not known here. A queue takes memory where it is made, and no other
//! call takes any. Its messages are in cells linked by index, and each call but `new` takes a fixed number of steps, whatever
//! waits. Contracts cite `specs/Queue` alone; how the cells are linked is in Linked, Cells and InQueue, in this order.
#![tactic(auto)]

mod cells;
mod entry;
mod queue;
mod threads;

pub use queue::MessageQueue;
pub use threads::may_cross_threads;
