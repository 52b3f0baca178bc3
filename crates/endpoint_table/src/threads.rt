//! What may move between threads, and what they may share.

use crate::table::EndpointTable;

fn crosses_threads<T: Send + Sync>() {}

/// Shows that a table may move between threads, and that threads may share it.
pub fn may_cross_threads() {
    crosses_threads::<EndpointTable>();
}
