//! The RPMsg frame (`struct rpmsg_hdr` of Linux): read with its first fault, and written in its one spelling.
//!
//! No call takes memory, and none panics. `mc_base` defines what a frame is.
#![tactic(auto)]

mod laws;
mod reading;
mod writing;

pub use laws::made_is_frame;
pub use mc_base::FrameFault;
pub use reading::{Frame, decode};
pub use writing::{encode_into, write_header};
