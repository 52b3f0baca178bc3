//! What may move between threads.
use crate::pace::{Polls, Sleeps};
use crate::recv::StationRecv;
use crate::send::StationSend;
use std::sync::Wait;

fn moves<T: Send>() {}

/// Shows that the ends and the paces of domains may move between threads.
pub fn may_cross_threads<'a, R: Wait + Sync + 'a>() {
    moves::<StationSend<'a>>();
    moves::<StationRecv<'a>>();
    moves::<Polls>();
    moves::<Sleeps<'a, R>>();
}
