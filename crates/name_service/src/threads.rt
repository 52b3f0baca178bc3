//! What may move between threads, and what they may share.

use crate::KnownNames;

fn crosses_threads<T: Send + Sync>() {}

/// Shows that the known names may move between threads, and that threads may share them.
pub fn may_cross_threads() {
    crosses_threads::<KnownNames>();
}
