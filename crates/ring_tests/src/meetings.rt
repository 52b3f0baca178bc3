ghost use Rattle.std.specs.Prelude.{◌≡◌};

use crate::rings::offer_all;
use shared_words::{Field, word_of};
use split_ring::{Closed, Device, Driver, Ring};
use std::alloc::Global;

// Fetches and gives back so many: whether all of them were there.
fn serve_some(on: &Ring, device: &mut Device, count: u32) -> bool
    requires { device.old.ring ≡ on.now.ring }
    ensures { device.new.ring ≡ on.now.ring }
{
    for _ in 0..count {
        let Some((buffer, len)) = device.fetch(on) else {
            return false;
        };
        device.give(on, buffer, len);
    }
    true
}

// Reclaims and offers again so many: whether all of them were there.
fn refill(on: &Ring, driver: &mut Driver, count: u32) -> bool
    requires { driver.old.ring ≡ on.now.ring }
    ensures { driver.new.ring ≡ on.now.ring }
{
    for _ in 0..count {
        let Some((buffer, len)) = driver.reclaim(on) else {
            return false;
        };
        driver.offer(on, buffer, len);
    }
    true
}

// Whether a ring of four, all of which were offered, is left as it must be: the device serves two and the driver refills them,
// each after a meeting.
fn is_moved_by_meetings(alloc: Global) -> bool {
    let Ok((ring, driver, mut device, buffers)) = Ring::new(alloc, 1, 4, 512) else {
        return false;
    };
    let mut driver = offer_all(&ring, driver, buffers);
    ring.meet(&mut driver, &mut device);
    let is_served = serve_some(&ring, &mut device, 2);
    ring.meet(&mut driver, &mut device);
    let is_back = refill(&ring, &mut driver, 2);
    let closed = ring.finish(driver, device);
    is_served && is_back && is_turned_without_looks(&closed)
}

fn is_turned_without_looks(closed: &Closed) -> bool {
    closed.device_looks() == 0
        && closed.device_saw() == 0
        && closed.driver_looks() == 0
        && closed.driver_saw() == 0
        && closed.offered_left() == [1, 0, 3, 2].as_slice()
        && closed.returned_left().is_empty()
        && closed.driver_held().is_empty()
        && closed.device_held().is_empty()
}

#[test]
fn a_meeting_shows_all_without_a_look(rt: HostRuntime) {
    assert!(rt; is_moved_by_meetings(rt.alloc()));
}

// What looks between meetings answer, as one moves: four of the device, and two of the driver.
fn looks_between(on: &Ring, driver: &mut Driver, device: &mut Device) -> [u32; 6]
    requires rings { (driver.old.ring ≡ on.now.ring) × (device.old.ring ≡ on.now.ring) }
{
    on.meet(driver, device);
    let first = device.look(on);
    serve_some(on, device, 1);
    let second = device.look(on);
    on.meet(driver, device);
    let third = device.look(on);
    let shown = driver.look(on);
    refill(on, driver, 1);
    let taken = driver.look(on);
    let fourth = device.look(on);
    [first, second, third, fourth, shown, taken]
}

// Whether looks at a ring of four, all of which were offered, answer what they must.
fn are_looks_due(alloc: Global) -> bool {
    let Ok((ring, driver, mut device, buffers)) = Ring::new(alloc, 0, 4, 512) else {
        return false;
    };
    let mut driver = offer_all(&ring, driver, buffers);
    looks_between(&ring, &mut driver, &mut device) == [4, 3, 3, 4, 1, 0]
}

#[test]
fn looks_between_two_meetings_show_all_that_was_written(rt: HostRuntime) {
    assert!(rt; are_looks_due(rt.alloc()));
}

// A full ring is half served, met, served to its end, and filled again: how many of these rounds went right.
fn rounds_with_meetings(on: &Ring, driver: &mut Driver, device: &mut Device, count: u32) -> u32
    requires rings { (driver.old.ring ≡ on.now.ring) × (device.old.ring ≡ on.now.ring) }
    ensures rings { (driver.new.ring ≡ on.now.ring) × (device.new.ring ≡ on.now.ring) }
{
    for done in 0..count {
        let is_half = serve_some(on, device, 128);
        on.meet(driver, device);
        let is_empty = serve_some(on, device, 128);
        if !is_half || !is_empty || !refill(on, driver, 256) {
            return done;
        }
    }
    count
}

// The indices have wrapped. In each round the device looked once, before the meeting, and the driver once, for the half that
// came back after it.
fn has_wrapped(closed: &Closed) -> bool {
    let words = closed.words();
    words.get(word_of(256, Field::AvailIdx)) == Some(&28_928)
        && words.get(word_of(256, Field::UsedIdx)) == Some(&28_672)
        && closed.device_looks() == 70_000
        && closed.device_saw() == 70_000 * 256
        && closed.driver_looks() == 70_000
        && closed.driver_saw() == 70_000 * 128
        && closed.offered_left().len() == 256
}

// Whether 70,000 rounds over a ring of 256 leave it so.
fn wraps(alloc: Global) -> bool {
    let Ok((ring, driver, mut device, buffers)) = Ring::new(alloc, 1, 256, 512) else {
        return false;
    };
    let mut driver = offer_all(&ring, driver, buffers);
    let done = rounds_with_meetings(&ring, &mut driver, &mut device, 70_000);
    let closed = ring.finish(driver, device);
    done == 70_000 && has_wrapped(&closed)
}

#[test]
fn seventy_thousand_meetings_over_a_ring_of_256(rt: HostRuntime) {
    assert!(rt; wraps(rt.alloc()));
}
