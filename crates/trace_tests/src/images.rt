ghost use Rattle.std.specs.Prelude.{length};
ghost use Rattle.std.specs.List.{All};
ghost use Rattle.ring_trace.specs.Writes.{LiesWithin};

use ring_trace::{
    ImageFault, ImageInfo, Write, both_sides_make_the_image, check_image, device_writes,
    driver_writes, fold_writes, start_image,
};
use std::alloc::Global;

/// A ring of size 4, queue 1, after one frame of 26 bytes went over and its buffer came back.
pub static ONE_FRAME: [u8; 118] = [
    0, 8, 0, 0, 0, 0, 0, 0, 26, 0, 0, 0, 0, 0, 0, 0, // descriptor 0
    0, 10, 0, 0, 0, 0, 0, 0, 0, 0, 0, 0, 0, 0, 0, 0, // descriptor 1
    0, 12, 0, 0, 0, 0, 0, 0, 0, 0, 0, 0, 0, 0, 0, 0, // descriptor 2
    0, 14, 0, 0, 0, 0, 0, 0, 0, 0, 0, 0, 0, 0, 0, 0, // descriptor 3
    0, 0, 1, 0, 0, 0, 0, 0, 0, 0, 0, 0, 0, 0, // available ring
    0, 0, // gap
    0, 0, 1, 0, // used ring
    0, 0, 0, 0, 0, 0, 0, 0, 0, 0, 0, 0, 0, 0, 0, 0, // elements 0 and 1
    0, 0, 0, 0, 0, 0, 0, 0, 0, 0, 0, 0, 0, 0, 0, 0, // elements 2 and 3
    0, 0, // avail_event
];

/// A ring of size 2, queue 0, of which every buffer was offered with its whole length.
static PRIMED: [u8; 66] = [
    0, 0, 0, 0, 0, 0, 0, 0, 0, 2, 0, 0, 2, 0, 0, 0, // descriptor 0
    0, 2, 0, 0, 0, 0, 0, 0, 0, 2, 0, 0, 2, 0, 0, 0, // descriptor 1
    0, 0, 2, 0, 0, 0, 1, 0, 0, 0, // available ring
    0, 0, // gap
    0, 0, 0, 0, // used ring
    0, 0, 0, 0, 0, 0, 0, 0, 0, 0, 0, 0, 0, 0, 0, 0, // elements 0 and 1
    0, 0, // avail_event
];

fn info(size: u32, queue: u8, avail: u16, used: u16) -> ImageInfo {
    ImageInfo {
        size,
        queue,
        avail,
        used,
    }
}

/// What a check says of a sound image, and of the image with two bytes changed.
fn checks() -> bool {
    let mut ahead = ONE_FRAME;
    ahead[82] = 6;
    let mut flags = PRIMED;
    flags[12] = 3;
    let mut id = PRIMED;
    id[38] = 2;
    check_image(&ONE_FRAME) == Ok(info(4, 1, 1, 1))
        && check_image(&ahead) == Err((82, ImageFault::IdxAhead))
        && check_image(&ONE_FRAME[..117]) == Err((117, ImageFault::ImageSize))
        && check_image(&PRIMED) == Ok(info(2, 0, 2, 0))
        && check_image(&flags) == Err((12, ImageFault::Constant))
        && check_image(&id) == Err((38, ImageFault::IdRange))
}

#[test]
fn images_are_checked(rt: HostRuntime) {
    assert!(rt; checks());
}

/// The image after these writes, and those.
fn folded(alloc: Global, start: &[u8], first: &[Write], second: &[Write]) -> Option<Vec<u8>>
    requires first { All (LiesWithin (length start.now)) first.now }
    requires second { All (LiesWithin (length start.now)) second.now }
{
    let half = fold_writes(alloc, start, first).ok()?;
    fold_writes(alloc, &half, second).ok()
}

/// Whether the writes of both sides make the image in either order.
fn either_order_makes_it(alloc: Global) -> Option<bool> {
    let start = start_image(alloc, 4, 1).ok()?;
    let driver = driver_writes(alloc, 4, &[(0, 26)]).ok()?;
    let device = device_writes(alloc, 4, &[(0, 0)]).ok()?;
    let one = folded(alloc, &start, &driver, &device)?;
    let other = folded(alloc, &start, &device, &driver)?;
    Some(one.as_slice() == ONE_FRAME.as_slice() && other.as_slice() == ONE_FRAME.as_slice())
}

#[test]
fn the_writes_of_both_sides_make_the_image_in_either_order(rt: HostRuntime) {
    assert!(rt; either_order_makes_it(rt.alloc()) == Some(true));
}

/// Whether a primed ring is what its driver's writes make, and they are in order.
fn is_primed(alloc: Global) -> Option<bool> {
    let start = start_image(alloc, 2, 0).ok()?;
    let driver = driver_writes(alloc, 2, &[(0, 512), (1, 512)]).ok()?;
    let made = fold_writes(alloc, &start, &driver).ok()?;
    let last = Write {
        offset: 34,
        width: 2,
        value: 2,
    };
    Some(made.as_slice() == PRIMED.as_slice() && driver.len() == 6 && driver[5] == last)
}

#[test]
fn a_primed_ring_is_what_its_driver_writes(rt: HostRuntime) {
    assert!(rt; is_primed(rt.alloc()) == Some(true));
}

#[test]
fn the_law_of_both_sides_holds() {
    both_sides_make_the_image();
}
