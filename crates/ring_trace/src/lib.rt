//! The image of a virtqueue: its bytes as a driver and a device lay them in memory, what is wrong with such bytes, and the
//! writes of both sides.
//!
//! `board_model`, `RingImage`, has the layout and the writes. `specs/` is to be read in this order: WordImage, ImageFaults, BothSides,
//! SoundImages.
#![tactic(auto)]

mod checking;
mod constants;
mod image;
mod laws;
mod rules;
mod start;
mod text;
mod words;
mod writes;

pub use checking::{ImageFault, ImageInfo, check_image};
pub use image::image_of;
pub use laws::{both_sides_make_the_image, finished_images_are_sound};
pub use start::start_image;
pub use text::{put_image, write_image};
pub use writes::{Write, device_writes, driver_writes, fold_writes};
