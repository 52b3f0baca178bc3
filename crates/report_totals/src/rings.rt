//! What the fourth pass asks of a run on threads beside: whether each buffer came back only after its frame was put, and the images of the rings that
//! the journals come to.

mod given;
mod images;
mod lanes;
mod lines;
mod pass;
mod walk;

pub use pass::ring_lines;
