//! What threads may share, and what may move between them.
use crate::half::Half;
use crate::table::RingTable;

fn is_shared<T: Send + Sync>() {}

fn moves<T: Send>() {}

/// Shows that threads may share a table, and that its halves may move between threads.
pub fn may_cross_threads() {
    is_shared::<RingTable>();
    moves::<Half>();
}
