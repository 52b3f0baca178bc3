//! The numbers of the buffers that went over a ring, by what the journals at its two ends say, and the image that they leave.
#![tactic(auto)]

mod image;
mod sender;

pub use image::image_left;
pub use sender::SenderNumbers;
