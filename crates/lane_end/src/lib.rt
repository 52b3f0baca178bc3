//! The ends of lanes. A lane carries frames one way, each in one of its buffers, and its size is how many it has.
//!
//! [`SendEnd`] and [`RecvEnd`] say what every end does, whatever carries the frames. Plain ends share one memory, and [`shuttle`]
//! carries frames and buffers between them; a [`LoopLane`] is both ends at once. Ends over rings need no shuttle: [`open_queue1`]
//! opens the lane from the driver of a link to its device, and [`open_queue0`] the lane back. Memory is allocated only when plain
//! ends and loop lanes are made. docs/PROFILE.md, "Lanes", has the rules.
#![tactic(auto)]

mod any;
mod carried;
mod fault;
mod finishing;
mod free_list;
mod inbox;
mod loop_lane;
mod meeting;
mod meets_end;
mod opening;
mod plain;
mod plain_recv;
mod plain_send;
mod pool_buffer;
mod priming;
mod recv_end;
mod returned;
mod ring_half;
mod ring_recv;
mod ring_send;
mod send_end;
mod threads;

pub use any::{AnyRecv, AnySend};
pub use fault::LaneFault;
pub use finishing::{RecvHalf, SendHalf, finish_lane, halves_stay_of_one_ring};
pub use loop_lane::LoopLane;
pub use meeting::{
    ends_stay_of_one_ring, finished_ends_are_one_lane, looks_between_meetings_are_exact, meet_ends,
};
pub use meets_end::MeetsEnd;
pub use opening::{DeviceRecv, DeviceSend, DriverRecv, DriverSend, open_queue0, open_queue1};
pub use plain::{ends_stay_one_lane, plain_lane, shuttle};
pub use plain_recv::PlainRecv;
pub use plain_send::PlainSend;
pub use recv_end::RecvEnd;
pub use returned::queue_1_returns_are_empty;
pub use ring_half::RingHalf;
pub use ring_recv::RingRecv;
pub use ring_send::RingSend;
pub use send_end::SendEnd;
pub use threads::may_cross_threads;
