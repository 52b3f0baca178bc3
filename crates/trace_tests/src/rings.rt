ghost use Rattle.std.specs.Prelude.{◌≡◌, ◌≤◌, ◌%◌, IfSome, length};
ghost use Rattle.std.specs.List.{All};
ghost use Rattle.mc_base.specs.Limits.{buffer_size, link_limit};
ghost use Rattle.shared_words.specs.Shown.{size_of};
ghost use Rattle.shared_words.specs.declared.view.Role.TheVariants as role;
ghost use Rattle.split_ring.specs.Ends.{HoldsBuffer};
ghost use Rattle.ring_trace.specs.SoundImages.{ReturnsAreEmpty};

use crate::images::ONE_FRAME;
use mc_base::{Buffer, MAX_LINK_SIZE};
use outer_io::{Failed, MemSink};
use ring_trace::{ImageInfo, check_image, finished_images_are_sound, image_of, write_image};
use split_ring::{Closed, Device, Driver, Ring};
use std::alloc::Global;

/// The lengths with which a buffer goes over and comes back.
#[derive(Clone, Copy)]
struct Lengths {
    offered: u32,
    returned: u32,
}

/// The lengths for a frame of 26 bytes: in queue 1 the driver sends, and in queue 0 the device.
fn lengths_in(queue: u8) -> Lengths
    ensures fit { (result.offered ≤ buffer_size) × (result.returned ≤ buffer_size) }
    ensures empty { queue ≡ 1 → result.returned ≡ 0 }
{
    if queue == 1 {
        return Lengths {
            offered: 26,
            returned: 0,
        };
    }
    Lengths {
        offered: 512,
        returned: 26,
    }
}

/// Sends the buffer over and back, so many times: how many times it came back.
fn rounds(
    on: &Ring,
    driver: &mut Driver,
    device: &mut Device,
    first: Buffer,
    lengths: Lengths,
    count: u32,
) -> u32
    requires rings { (driver.old.ring ≡ on.now.ring) × (device.old.ring ≡ on.now.ring) }
    requires held { HoldsBuffer role.Driver driver.old first }
    requires width { on.now.ring.width ≡ buffer_size }
    requires fit { (lengths.offered ≤ buffer_size) × (lengths.returned ≤ buffer_size) }
    requires returned { All (λ e. e.1 ≡ lengths.returned) device.old.written }
    ensures rings { (driver.new.ring ≡ on.now.ring) × (device.new.ring ≡ on.now.ring) }
    ensures returned { All (λ e. e.1 ≡ lengths.returned) device.new.written }
{
    let mut buffer = first;
    for done in 0..count {
        driver.offer(on, buffer, lengths.offered);
        let Some((frame, _)) = device.fetch(on) else {
            return done;
        };
        device.give(on, frame, lengths.returned);
        let Some((back, _)) = driver.reclaim(on) else {
            return done;
        };
        buffer = back;
    }
    count
}

/// A ring that a link can have, after so many rounds with its first buffer.
fn run(alloc: Global, queue: u8, size: u32, count: u32) -> Option<(Ring, Driver, Device)>
    ensures halves { IfSome result (λ r. (r.1.ring ≡ r.0.ring) × (r.2.ring ≡ r.0.ring)) }
    ensures empty { IfSome result (λ r. ReturnsAreEmpty r.0.queue r.2.written) }
    ensures link { IfSome result (λ r. (size_of r.0.ring ≤ link_limit) × (r.0.ring.width ≡ buffer_size)) }
{
    if size > MAX_LINK_SIZE {
        return None;
    }
    let Ok((ring, mut driver, mut device, mut buffers)) = Ring::new(alloc, queue, size, 512) else {
        return None;
    };
    if buffers.is_empty() {
        return None;
    }
    let first = buffers.remove(0);
    let done = rounds(
        &ring,
        &mut driver,
        &mut device,
        first,
        lengths_in(queue),
        count,
    );
    if done == count {
        Some((ring, driver, device))
    } else {
        None
    }
}

/// A ring of queue 1, finished after so many rounds.
fn after_rounds(alloc: Global, size: u32, count: u32) -> Option<Closed> {
    let (ring, driver, device) = run(alloc, 1, size, count)?;
    Some(ring.finish(driver, device))
}

/// What a check says of the image of the finished ring, which cannot have a fault.
fn info_of(alloc: Global, ring: Ring, driver: Driver, device: Device) -> Option<ImageInfo>
    requires halves { (driver.ring ≡ ring.ring) × (device.ring ≡ ring.ring) }
    requires empty { ReturnsAreEmpty ring.queue device.written }
    requires link { (size_of ring.ring ≤ link_limit) × (ring.ring.width ≡ buffer_size) }
    ensures ring { IfSome result (λ i. (i.size ≡ size_of ring.ring) × (i.queue ≡ ring.queue)) }
    ensures avail { IfSome result (λ i. i.avail ≡ length driver.written % 65536) }
    ensures used { IfSome result (λ i. i.used ≡ length device.written % 65536) }
{
    finished_images_are_sound();
    let closed = ring.finish(driver, device);
    let Ok(image) = image_of(alloc, &closed) else {
        return None;
    };
    let Ok(info) = check_image(&image) else {
        unreachable!()
    };
    Some(info)
}

/// Whether a ring of four has the image after one frame.
fn has_the_image(alloc: Global) -> Option<bool> {
    let closed = after_rounds(alloc, 4, 1)?;
    let image = image_of(alloc, &closed).ok()?;
    Some(image.as_slice() == ONE_FRAME.as_slice())
}

#[test]
fn a_ring_after_one_frame_has_the_image(rt: HostRuntime) {
    assert!(rt; has_the_image(rt.alloc()) == Some(true));
}

/// What a check says of the image of a ring after 70,000 rounds.
fn info_after_many(alloc: Global, queue: u8, size: u32) -> Option<ImageInfo> {
    let (ring, driver, device) = run(alloc, queue, size, 70_000)?;
    info_of(alloc, ring, driver, device)
}

/// Whether both indices have wrapped in the image of a ring after 70,000 rounds.
fn have_wrapped(alloc: Global, queue: u8, size: u32) -> bool {
    match info_after_many(alloc, queue, size) {
        Some(info) => {
            (info.size, info.queue) == (size, queue) && (info.avail, info.used) == (4464, 4464)
        }
        None => false,
    }
}

/// Queues and sizes.
static RINGS: [(u8, u32); 4] = [(0, 2), (0, 256), (1, 2), (1, 256)];

#[test]
fn both_indices_wrap_in_either_queue(rt: HostRuntime) {
    for (queue, size) in &RINGS {
        assert!(rt;
            have_wrapped(rt.alloc(), *queue, *size),
            "size {size}, queue {queue}"
        );
    }
}

/// The image of a ring of two of queue 1 before its first step.
const HEX: &[u8] =
    b"000400000000000000000000000000000006000000000000000000000000000000000000000000000000000000000000000000000000000000000000000000000000";

/// Whether the image of a ring of two on which nothing was offered is written as far as there is room, with this result.
fn is_written(alloc: Global, room: usize, end: Result<(), Failed>) -> Option<bool> {
    let closed = after_rounds(alloc, 2, 0)?;
    let mut sink = MemSink::new(alloc, Vec::new(alloc), 7, room).ok()?;
    let written = write_image(&closed, &mut sink);
    Some(written == end && Some(sink.written()) == HEX.get(..room))
}

#[test]
fn an_image_is_written_in_hexadecimal(rt: HostRuntime) {
    assert!(rt; is_written(rt.alloc(), 132, Ok(())) == Some(true));
    assert!(rt; is_written(rt.alloc(), 50, Err(Failed)) == Some(true));
}
