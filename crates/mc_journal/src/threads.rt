//! What may move between threads, and what they may share.

use crate::journal::Journal;

fn crosses_threads<T: Send + Sync>() {}

/// Shows that a journal may move between threads, and that threads may share it.
pub fn may_cross_threads() {
    crosses_threads::<Journal>();
}
