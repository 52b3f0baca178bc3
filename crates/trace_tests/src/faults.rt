ghost use Rattle.std.specs.Prelude.{◌<◌};

use ImageFault::{Constant, IdRange, IdxAhead, ImageSize, LenRange};
use ring_trace::{ImageFault, check_image, start_image};
use std::alloc::Global;

/// The fault of a ring's first image with one byte made 255, or none.
type Due = Option<(u32, ImageFault)>;

/// In a descriptor. The lowest byte of its length may be 255.
fn due_in_descriptor(at: u32) -> Due {
    let first = at / 16 * 16;
    match at % 16 {
        0..=7 => Some((first, Constant)),
        8 => None,
        9..=11 => Some((first + 8, LenRange)),
        12 | 13 => Some((first + 12, Constant)),
        _ => Some((first + 14, Constant)),
    }
}

/// In the available ring, from its beginning. A number of 255 fits the largest ring, as an index of 255 does.
fn due_in_available(size: u32, at: u32) -> Due
    requires { (size < 257) × (at < 65536) }
{
    let ring = 16 * size;
    let place = (at - 4.min(at)) / 2 * 2 + ring + 4;
    match at {
        0 | 1 => Some((ring, Constant)),
        2 if size == 256 => None,
        2 | 3 => Some((18 * size + 10, IdxAhead)),
        _ if at % 2 == 0 && size == 256 => None,
        _ => Some((place, IdRange)),
    }
}

/// In the used ring, from its beginning. An index of 65280 is 256 behind an available index of 0.
fn due_in_used(size: u32, queue: u8, at: u32) -> Due
    requires { (size < 257) × (at < 65536) }
{
    let ring = 18 * size + 8;
    let element = (at - 4.min(at)) / 8 * 8 + ring + 4;
    match at {
        0 | 1 => return Some((ring, Constant)),
        3 if size == 256 => return None,
        2 | 3 => return Some((ring + 2, IdxAhead)),
        _ => (),
    }
    match (at - 4.min(at)) % 8 {
        0 if size == 256 => None,
        0..=3 => Some((element, IdRange)),
        4 if queue == 0 => None,
        _ => Some((element + 4, LenRange)),
    }
}

fn due(size: u32, queue: u8, at: u32) -> Due
    requires { (size < 257) × (at < 65536) }
{
    let gap = 18 * size + 6;
    if at < 16 * size {
        due_in_descriptor(at)
    } else if at < 18 * size + 4 {
        due_in_available(size, at - 16 * size)
    } else if at < gap {
        Some((18 * size + 4, Constant))
    } else if at < gap + 2 {
        Some((at, Constant))
    } else if at < 26 * size + 12 {
        due_in_used(size, queue, at - (gap + 2))
    } else {
        Some((26 * size + 12, Constant))
    }
}

/// The first byte of a queue's first image at which a check does not find what is due when that byte is 255.
fn first_wrong(alloc: Global, size: u32, queue: u8) -> Option<Option<u32>>
    requires { (size < 257) × (queue < 2) }
{
    let mut image = start_image(alloc, size, queue).ok()?;
    for at in 0..26 * size + 14 {
        let was = image[at as usize];
        image[at as usize] = 255;
        if check_image(&image).err() != due(size, queue, at) {
            return Some(Some(at));
        }
        image[at as usize] = was;
    }
    Some(None)
}

/// Whether each byte of a queue's first image has what is due when it is 255.
fn are_due(alloc: Global, size: u32, queue: u8) -> bool {
    size <= 256 && queue <= 1 && first_wrong(alloc, size, queue) == Some(None)
}

/// Sizes and queues.
static QUEUES: [(u32, u8); 6] = [(2, 0), (2, 1), (4, 0), (4, 1), (256, 0), (256, 1)];

#[test]
fn each_changed_byte_has_its_fault_and_place(rt: HostRuntime) {
    for (size, queue) in &QUEUES {
        assert!(rt;
            are_due(rt.alloc(), *size, *queue),
            "size {size}, queue {queue}"
        );
    }
}

/// Whether this is the length of an image.
fn is_length(len: usize) -> bool {
    [66, 118, 222, 430, 846, 1678, 3342].contains(&len)
}

/// Whether this many zeros are refused for their length exactly if no image has that length.
fn is_refused(alloc: Global, len: usize) -> Option<bool>
    requires { len < 65536 }
{
    let zeros = Vec::from_elem(alloc, 0u8, len).ok()?;
    Some((check_image(&zeros) == Err((len as u32, ImageSize))) != is_length(len))
}

#[test]
fn any_other_length_is_no_image(rt: HostRuntime) {
    for len in 0..3601 {
        assert!(rt; is_refused(rt.alloc(), len) == Some(true), "{len} bytes");
    }
}
