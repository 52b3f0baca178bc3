//! What may move between threads, and what they may share.

use crate::any::{AnyRecv, AnySend};
use crate::loop_lane::LoopLane;
use crate::opening::{DeviceRecv, DeviceSend, DriverRecv, DriverSend};
use crate::plain_recv::PlainRecv;
use crate::plain_send::PlainSend;

fn is_shared<T: Send + Sync>() {}

fn moves<T: Send>() {}

/// Shows that every end may move between threads, and that threads may share plain ends and loop lanes. An end over a ring
/// belongs to one thread at a time.
pub fn may_cross_threads<'a>() {
    is_shared::<PlainSend>();
    is_shared::<PlainRecv>();
    is_shared::<LoopLane>();
    moves::<DriverSend<'a>>();
    moves::<DeviceRecv<'a>>();
    moves::<DeviceSend<'a>>();
    moves::<DriverRecv<'a>>();
    moves::<AnySend<'a>>();
    moves::<AnyRecv<'a>>();
}
