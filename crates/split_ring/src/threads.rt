//! What threads may share, and what may move between them.
use crate::device::Device;
use crate::driver::Driver;
use crate::ring::Ring;

fn is_shared<T: Send + Sync>() {}

fn moves<T: Send>() {}

/// Shows that threads may share a ring, and that its halves may move between threads.
pub fn may_cross_threads() {
    is_shared::<Ring>();
    moves::<Driver>();
    moves::<Device>();
}
