//! The rules on the numbers in an image.

ghost use Rattle.std.specs.Prelude.{◌≡◌, ◌<◌, ◌≤◌, ◌+◌, ◌*◌, ◌-◌, ◌^◌, ℕ, [], ◌∷◌, length};
ghost use Rattle.mc_base.specs.Bytes.{number_at};
ghost use Rattle.board_model.specs.RingImage.{image_length};
ghost use Rattle.ring_trace.specs.ImageFaults.{first_broken, descriptor_constants, ring_constants, constants, rules_of_column, offered_ids, used_ids, ids, desc_lens, used_lens, lens};

use crate::constants::{address_of, flags_of};
use byteorder::{ByteOrder, LittleEndian};
use mc_base::BUFFER_SIZE;

/// How many bytes a buffer has.
const BUFFER: u64 = BUFFER_SIZE as u64;

/// The number at a place, so many bytes wide.
pub fn number_in(image: &[u8], place: u32, width: usize) -> u64
    requires width { (1 ≤ width) × (width ≤ 8) }
    requires inside { place + width ≤ length image.now }
    ensures { result ≡ number_at place width image.now }
{
    LittleEndian::read_uint(&image[place as usize..], width)
}

/// The number of two bytes at a place.
pub fn index_in(image: &[u8], place: u32) -> u16
    requires { place + 2 ≤ length image.now }
    ensures { result ≡ number_at place 2 image.now }
{
    LittleEndian::read_u16(&image[place as usize..])
}

/// The place of a number, if it is not from the least to the most that it may be.
fn broken(image: &[u8], place: u32, width: usize, least: u64, most: u64) -> Option<u32>
    requires width { (1 ≤ width) × (width ≤ 8) }
    requires inside { place + width ≤ length image.now }
    ensures { result ≡ first_broken image.now (record { place = place; width = width; least = least; most = most } ∷ []) }
{
    let number = number_in(image, place, width);
    if number < least || most < number {
        return Some(place);
    }
    None
}

/// The first constant of a descriptor that is another.
fn broken_descriptor(image: &[u8], size: u32, queue: u8, i: u32) -> Option<u32>
    requires few { size < 257 }
    requires queue { queue < 2 }
    requires descriptor { i < size }
    requires len { image_length size ≡ length image.now }
    ensures { result ≡ first_broken image.now (descriptor_constants size queue i) }
{
    let address = address_of(size, queue, i);
    let flags = flags_of(queue);
    broken(image, 16 * i, 8, address, address)
        .or(broken(image, 12 + 16 * i, 2, flags, flags))
        .or(broken(image, 14 + 16 * i, 2, 0, 0))
}

/// The first constant after the descriptors that is another.
fn broken_ring(image: &[u8], size: u32) -> Option<u32>
    requires few { size < 257 }
    requires len { image_length size ≡ length image.now }
    ensures { result ≡ first_broken image.now (ring_constants size) }
{
    let gap = 18 * size + 6;
    broken(image, 16 * size, 2, 0, 0)
        .or(broken(image, 18 * size + 4, 2, 0, 0))
        .or(broken(image, gap, 1, 0, 0))
        .or(broken(image, gap + 1, 1, 0, 0))
        .or(broken(image, 18 * size + 8, 2, 0, 0))
        .or(broken(image, 26 * size + 12, 2, 0, 0))
}

/// The first constant that is another.
pub fn broken_constant(image: &[u8], size: u32, queue: u8) -> Option<u32>
    requires few { size < 257 }
    requires queue { queue < 2 }
    requires len { image_length size ≡ length image.now }
    ensures { result ≡ first_broken image.now (constants size queue) }
{
    for i in 0..size {
        if let Some(place) = broken_descriptor(image, size, queue, i) {
            return Some(place);
        }
    }
    broken_ring(image, size)
}

/// The numbers that a queue has at each of its places: where the first stands, how far the next is from it, and how many bytes
/// each is wide.
#[derive(Clone, Copy)]
struct Column {
    first: u32,
    step: u32,
    width: usize,
}

/// The first number of a column that is over the most.
fn broken_column(image: &[u8], size: u32, column: Column, most: u64) -> Option<u32>
    requires few { size < 257 }
    requires width { (1 ≤ column.width) × (column.width ≤ 8) }
    requires inside { (p : ℕ) → p < size → (column.first + column.step * p) + column.width ≤ length image.now }
    requires small { length image.now < 2 ^ 32 }
    ensures { result ≡ first_broken image.now (rules_of_column (λ p. column.first + column.step * p) column.width most size) }
{
    for p in 0..size {
        let place = column.first + column.step * p;
        if number_in(image, place, column.width) > most {
            return Some(place);
        }
    }
    None
}

/// The first number in the available ring that is not below the size.
fn broken_offered(image: &[u8], size: u32) -> Option<u32>
    requires few { (0 < size) × (size < 257) }
    requires len { image_length size ≡ length image.now }
    ensures { result ≡ first_broken image.now (offered_ids size) }
{
    let column = Column {
        first: 16 * size + 4,
        step: 2,
        width: 2,
    };
    broken_column(image, size, column, u64::from(size - 1))
}

/// The first number in the used ring that is not below the size.
fn broken_used(image: &[u8], size: u32) -> Option<u32>
    requires few { (0 < size) × (size < 257) }
    requires len { image_length size ≡ length image.now }
    ensures { result ≡ first_broken image.now (used_ids size) }
{
    let column = Column {
        first: 18 * size + 12,
        step: 8,
        width: 4,
    };
    broken_column(image, size, column, u64::from(size - 1))
}

/// The first number of a buffer that is not below the size.
#[tactic(auto, using(crate::proofs::Firsts::first_append))]
pub fn broken_id(image: &[u8], size: u32) -> Option<u32>
    requires few { (0 < size) × (size < 257) }
    requires len { image_length size ≡ length image.now }
    ensures { result ≡ first_broken image.now (ids size) }
{
    broken_offered(image, size).or(broken_used(image, size))
}

/// The first length of a descriptor that is over a buffer's.
fn broken_desc_len(image: &[u8], size: u32) -> Option<u32>
    requires few { size < 257 }
    requires len { image_length size ≡ length image.now }
    ensures { result ≡ first_broken image.now (desc_lens size) }
{
    let column = Column {
        first: 8,
        step: 16,
        width: 4,
    };
    broken_column(image, size, column, BUFFER)
}

/// The first length in the used ring that is over a buffer's, or in queue 1 not 0.
fn broken_used_len(image: &[u8], size: u32, queue: u8) -> Option<u32>
    requires few { size < 257 }
    requires len { image_length size ≡ length image.now }
    ensures { result ≡ first_broken image.now (used_lens size queue) }
{
    let column = Column {
        first: 18 * size + 16,
        step: 8,
        width: 4,
    };
    broken_column(image, size, column, if queue == 0 { BUFFER } else { 0 })
}

/// The first length that is over a buffer's, or not 0 where it has to be.
#[tactic(auto, using(crate::proofs::Firsts::first_append))]
pub fn broken_len(image: &[u8], size: u32, queue: u8) -> Option<u32>
    requires few { size < 257 }
    requires len { image_length size ≡ length image.now }
    ensures { result ≡ first_broken image.now (lens size queue) }
{
    broken_desc_len(image, size).or(broken_used_len(image, size, queue))
}
