//! The check of an image.

ghost use Rattle.std.specs.Prelude.{◌≡◌, ◌<◌, ◌^◌, IfSome, length};
ghost use Rattle.ring_trace.specs.ImageFaults.{checked, size_of_length, faults, first_of, avail_idx, used_idx, idx_place};
ghost use Rattle.board_model.specs.RingImage.{image_length};

use crate::rules::{broken_constant, broken_id, broken_len, index_in};
use thiserror::Error;

/// What an image is of: a queue's size and number, and its two indices.
#[derive(Clone, Copy, Debug, PartialEq, Eq)]
pub struct ImageInfo {
    pub size: u32,
    pub queue: u8,
    pub avail: u16,
    pub used: u16,
}

/// What is wrong with an image, in the order in which it is reported.
#[derive(Clone, Copy, Debug, PartialEq, Eq, Error)]
pub enum ImageFault {
    /// The length is that of no queue.
    #[error("the image has the length of no queue")]
    ImageSize,
    /// A field or a byte between the rings is not what it is in every image.
    #[error("a byte is not what it is in every image")]
    Constant,
    /// The available index is further ahead of the used index than the queue is large.
    #[error("the available index is further ahead of the used index than the queue is large")]
    IdxAhead,
    /// A number of a buffer is not below the size.
    #[error("the number of a buffer is not below the size of the queue")]
    IdRange,
    /// A length is over a buffer's, or not 0 where it has to be.
    #[error("a length is over a buffer's, or not 0 where it has to be")]
    LenRange,
}

/// The sizes that a queue can have.
const SIZES: [u32; 8] = [2, 4, 8, 16, 32, 64, 128, 256];

/// Checks the image of a virtqueue.
///
/// # Errors
///
/// The first fault, with its place: the field's offset, and for `ImageSize` the length.
pub fn check_image(image: &[u8]) -> Result<ImageInfo, (u32, ImageFault)>
    requires { length image.now < 2 ^ 32 }
    ensures { result ≡ checked image.now }
{
    let Some(size) = size_of(image.len()) else {
        return Err((image.len() as u32, ImageFault::ImageSize));
    };
    let queue = match index_in(image, 12) {
        2 => 0,
        0 => 1,
        _ => return Err((12, ImageFault::Constant)),
    };
    if let Some(fault) = fault_of(image, size, queue) {
        return Err(fault);
    }
    Ok(ImageInfo {
        size,
        queue,
        avail: avail_idx(image, size),
        used: used_idx(image, size),
    })
}

/// The first fault of an image of this size and queue.
fn fault_of(image: &[u8], size: u32, queue: u8) -> Option<(u32, ImageFault)>
    requires few { (0 < size) × (size < 257) }
    requires queue { queue < 2 }
    requires len { image_length size ≡ length image.now }
    ensures { result ≡ first_of (faults size queue image.now) }
{
    if let Some(place) = broken_constant(image, size, queue) {
        return Some((place, ImageFault::Constant));
    }
    if let Some(place) = idx_ahead(image, size) {
        return Some((place, ImageFault::IdxAhead));
    }
    if let Some(place) = broken_id(image, size) {
        return Some((place, ImageFault::IdRange));
    }
    let place = broken_len(image, size, queue)?;
    Some((place, ImageFault::LenRange))
}

/// The size of the queue whose image has so many bytes.
fn size_of(len: usize) -> Option<u32>
    ensures size { result ≡ size_of_length len }
    ensures range { IfSome result (λ size. (0 < size) × (size < 257) × (image_length size ≡ len)) }
{
    SIZES
        .iter()
        .copied()
        .find(|size| 26 * *size as usize + 14 == len)
}

/// The available index.
fn avail_idx(image: &[u8], size: u32) -> u16
    requires few { size < 257 }
    requires len { image_length size ≡ length image.now }
    ensures { result ≡ avail_idx size image.now }
{
    index_in(image, 16 * size + 2)
}

/// The used index.
fn used_idx(image: &[u8], size: u32) -> u16
    requires few { size < 257 }
    requires len { image_length size ≡ length image.now }
    ensures { result ≡ used_idx size image.now }
{
    index_in(image, 18 * size + 10)
}

/// The place of the used index, where the available one is too far ahead of it.
fn idx_ahead(image: &[u8], size: u32) -> Option<u32>
    requires few { size < 257 }
    requires len { image_length size ≡ length image.now }
    ensures { result ≡ idx_place size image.now }
{
    let ahead = avail_idx(image, size).wrapping_sub(used_idx(image, size));
    if u32::from(ahead) > size {
        return Some(18 * size + 10);
    }
    None
}
