//! What may move between threads, and what they may share.

use crate::service::Service;

fn crosses_threads<T: Send + Sync>() {}

/// Shows that a service may move between threads, and that threads may share it.
pub fn may_cross_threads() {
    crosses_threads::<Service>();
}
