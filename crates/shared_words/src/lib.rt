//! One split virtqueue as atomic words, with its buffers in slots: a typed call for each kind of step.
#![tactic(auto)]

mod closing;
mod fault;
mod field;
mod half;
mod kinds;
mod making;
mod offering;
mod returning;
mod rule;
mod table;
mod telling;
mod threads;
mod view;
mod ways;

pub use closing::ClosedTable;
pub use fault::RingFault;
pub use field::{Field, word_of};
pub use half::Half;
pub use table::RingTable;
pub use threads::may_cross_threads;
