//! The image that is left of a ring.

ghost use Rattle.std.specs.Prelude.{◌≡◌, ◌<◌, ◌≤◌, ◌++◌, IfOk, OnOk};
ghost use Rattle.std.specs.List.{All};
ghost use Rattle.mc_base.specs.Limits.{buffer_size};
ghost use Rattle.ring_numbers.specs.RingLists.{all_with, given_with, image_left as image_of, offered, returned};
ghost use Rattle.ring_numbers.specs.SenderNumbers.{number_at as number_of_place};

use crate::sender::number_in;
use mc_base::{BUFFER_SIZE, NoMemory};
use ring_trace::{device_writes, driver_writes, fold_writes, start_image};
use std::alloc::Global;

/// The image of a ring over which these frames were put, each in the buffer of its number and with its length, and of which these buffers
/// were given back, by the places of their frames. The driver puts over queue 1, and the device over queue 0.
///
/// # Errors
///
/// `NoMemory` where an allocation fails.
pub fn image_left(
    alloc: Global,
    size: u16,
    queue: u8,
    used: &[(u16, u32)],
    given: &[u32],
) -> Result<Vec<u8>, NoMemory>
    requires some { 0 < size }
    requires most { size ≤ 256 }
    requires queue { queue < 2 }
    requires numbers { All (λ e. e.0 < size) used.now }
    ensures { IfOk result (λ image. image.items ≡ image_of size queue used.now given.now) }
{
    let offered = offered_by(alloc, size, queue, used, given)?;
    let returned = returned_by(alloc, size, queue, used, given)?;
    let start = start_image(alloc, u32::from(size), queue)?;
    let offers = driver_writes(alloc, u32::from(size), &offered)?;
    let image = fold_writes(alloc, &start, &offers)?;
    let returns = device_writes(alloc, u32::from(size), &returned)?;
    fold_writes(alloc, &image, &returns)
}

/// What the driver offers.
fn offered_by(
    alloc: Global,
    size: u16,
    queue: u8,
    used: &[(u16, u32)],
    given: &[u32],
) -> Result<Vec<(u16, u32)>, NoMemory>
    requires some { 0 < size }
    requires numbers { All (λ e. e.0 < size) used.now }
    ensures value { IfOk result (λ v. v.items ≡ offered size queue used.now given.now) }
    ensures numbers { IfOk result (λ v. All (λ e. e.0 < size) v.items) }
{
    if queue != 0 {
        return copied(alloc, used);
    }
    let mut offers = all_of(alloc, size)?;
    add_given(&mut offers, size, BUFFER_SIZE as u32, used, given)?;
    Ok(offers)
}

/// What the device returns.
fn returned_by(
    alloc: Global,
    size: u16,
    queue: u8,
    used: &[(u16, u32)],
    given: &[u32],
) -> Result<Vec<(u16, u32)>, NoMemory>
    requires some { 0 < size }
    requires numbers { All (λ e. e.0 < size) used.now }
    ensures value { IfOk result (λ v. v.items ≡ returned queue used.now given.now) }
    ensures numbers { IfOk result (λ v. All (λ e. e.0 < size) v.items) }
{
    if queue == 0 {
        return copied(alloc, used);
    }
    let mut returns = Vec::new(alloc);
    add_given(&mut returns, size, 0, used, given)?;
    Ok(returns)
}

fn copied(alloc: Global, offers: &[(u16, u32)]) -> Result<Vec<(u16, u32)>, NoMemory>
    ensures { IfOk result (λ v. v.items ≡ offers.now) }
{
    match Vec::from_slice(alloc, offers) {
        Ok(copy) => Ok(copy),
        Err(_) => Err(NoMemory),
    }
}

/// All buffers, with the length of a buffer.
fn all_of(alloc: Global, size: u16) -> Result<Vec<(u16, u32)>, NoMemory>
    ensures value { IfOk result (λ v. v.items ≡ all_with buffer_size size) }
    ensures numbers { IfOk result (λ v. All (λ e. e.0 < size) v.items) }
{
    let mut offers = Vec::new(alloc);
    for number in 0..size {
        if offers.push((number, BUFFER_SIZE as u32)).is_err() {
            return Err(NoMemory);
        }
    }
    Ok(offers)
}

/// Adds the buffers of the frames at these places, each with this length.
fn add_given(
    offers: &mut Vec<(u16, u32)>,
    _size: u16,
    bytes: u32,
    used: &[(u16, u32)],
    given: &[u32],
) -> Result<(), NoMemory>
    requires some { 0 < _size }
    requires used { All (λ e. e.0 < _size) used.now }
    requires numbers { All (λ e. e.0 < _size) offers.old.items }
    ensures value { OnOk result (offers.new.items ≡ offers.old.items ++ given_with bytes used.now given.now) }
    ensures numbers { OnOk result (All (λ e. e.0 < _size) offers.new.items) }
{
    for place in given {
        let number = number_at(used, _size, *place);
        if offers.push((number, bytes)).is_err() {
            return Err(NoMemory);
        }
    }
    Ok(())
}

/// The number of the buffer of the frame at a place, and 0 where there is none.
fn number_at(used: &[(u16, u32)], _size: u16, place: u32) -> u16
    requires some { 0 < _size }
    requires used { All (λ e. e.0 < _size) used.now }
    ensures value { result ≡ number_of_place used.now place }
    ensures small { result < _size }
{
    number_in(used, place).unwrap_or(0)
}
