//! Pictures of a report: a trace of its events, and a chart of its lanes.
#![tactic(auto)]

mod buffers;
mod caption;
mod kind;
mod lanes;
mod marks;
mod subject;
mod trace;

pub use buffers::{Buffers, LaneBuffers, lane_of};
pub use caption::Caption;
pub use kind::{FrameKind, kind_of};
pub use lanes::put_lanes;
pub use marks::{Area, Point, put_circle, put_line, put_page, put_rect, put_text};
pub use subject::{Subject, entry_in, frame_in, number_in};
pub use trace::put_trace;
