ghost use Rattle.std.specs.Prelude.{◌≡◌, IfSome, OnOk};
ghost use Rattle.shared_words.specs.declared.view.Role.TheVariants as role;
ghost use Rattle.split_ring.specs.Ends.{HoldsBuffer, AreHeld, IsSound};

use mc_base::Buffer;
use shared_words::{Field, word_of};
use split_ring::{Closed, Device, Driver, Ring, RingFault, may_cross_threads};
use std::alloc::{AllocError, Global};
use std::collections::VecDeque;
use std::test::Fail;
use std::thread::join;

// Offers the buffers, the last first, with lengths from 0 to 63 in turn, which fit the buffers of every ring.
pub(crate) fn offer_all(on: &Ring, mut driver: Driver, mut buffers: Vec<Buffer>) -> Driver
    requires ring { driver.ring ≡ on.now.ring }
    requires held { AreHeld role.Driver driver buffers.items }
    ensures { result.ring ≡ on.now.ring }
{
    let mut len = 0;
    while let Some(buffer) = buffers.pop() {
        driver.offer(on, buffer, len);
        len = (len + 1) % 64;
    }
    driver
}

// Fetches until it has so many: whether they come in the order in which all buffers of a ring of this size were offered.
fn fetches_in_order(on: &Ring, mut device: Device, size: u32) -> bool
    requires { device.ring ≡ on.now.ring }
{
    let mut next = 0;
    for _ in 0..u64::MAX {
        if next >= size {
            break;
        }
        if let Some((buffer, len)) = device.fetch(on) {
            if u32::from(buffer.number()) != size - 1 - next || len != next % 64 {
                return false;
            }
            next += 1;
        }
    }
    next == size
}

#[test]
fn two_threads_keep_the_order(rt: HostRuntime) -> Result<(), Fail> {
    may_cross_threads();
    let (ring, driver, device, buffers) = Ring::new(rt.alloc(), 1, 256, 512)?;
    let (_, is_in_order) = join(
        &rt,
        || offer_all(&ring, driver, buffers),
        || fetches_in_order(&ring, device, 256),
    );
    assert!(rt; is_in_order);
    Ok(())
}

// Whether nothing is there to fetch.
fn fetches_none(on: &Ring, device: &mut Device) -> bool
    requires { device.old.ring ≡ on.now.ring }
    ensures { device.new.ring ≡ on.now.ring }
{
    device.fetch(on).is_none()
}

/// Whether a new ring of this size shows nothing, and then all that is offered, in that order.
fn keeps_the_order(alloc: Global, size: u32) -> bool {
    let Ok((ring, driver, mut device, buffers)) = Ring::new(alloc, 0, size, 64) else {
        return false;
    };
    let is_empty = fetches_none(&ring, &mut device);
    let _driver = offer_all(&ring, driver, buffers);
    let shown = device.look(&ring);
    is_empty && shown == size && fetches_in_order(&ring, device, size)
}

#[test]
fn the_least_and_the_greatest_size(rt: HostRuntime) {
    for size in [2, 256, 32_768] {
        assert!(rt; keeps_the_order(rt.alloc(), size), "{size}");
    }
}

/// Which of the queue, the size and the length a ring is refused for, if it is.
fn refused_for(alloc: Global, queue: u8, size: u32, length: u32) -> Option<&'static str> {
    match Ring::new(alloc, queue, size, length).err() {
        Some(RingFault::Queue) => Some("queue"),
        Some(RingFault::Size) => Some("size"),
        Some(RingFault::Length) => Some("length"),
        _ => None,
    }
}

static REFUSED: [(u8, u32, u32, &str); 6] = [
    (2, 2, 512, "queue"),
    (2, 3, 65, "queue"),
    (1, 3, 512, "size"),
    (1, 65_536, 65, "size"),
    (1, 2, 65, "length"),
    (0, 32_768, 4160, "length"),
];

#[test]
fn the_first_that_is_unlawful_is_refused(rt: HostRuntime) {
    for (queue, size, length, fault) in &REFUSED {
        assert!(rt;
            refused_for(rt.alloc(), *queue, *size, *length) == Some(*fault),
            "{size} {length}"
        );
    }
}

// The device's part of a round: the next buffer, which has 16 bytes, is given back with none.
fn serve_one(on: &Ring, device: &mut Device) -> bool
    requires { device.old.ring ≡ on.now.ring }
    ensures { device.new.ring ≡ on.now.ring }
{
    let Some((buffer, len)) = device.fetch(on) else {
        return false;
    };
    device.give(on, buffer, 0);
    len == 16
}

// The driver's part of a round, but for the offer: the buffer comes back with none.
fn reclaim_one(on: &Ring, driver: &mut Driver) -> Option<Buffer>
    requires { driver.old.ring ≡ on.now.ring }
    ensures ring { driver.new.ring ≡ on.now.ring }
    ensures held { IfSome result (λ b. HoldsBuffer role.Driver driver.new b) }
{
    match driver.reclaim(on) {
        Some((buffer, 0)) => Some(buffer),
        _ => None,
    }
}

// Rounds on one thread: how many went right.
fn rounds(on: &Ring, driver: &mut Driver, device: &mut Device, first: Buffer, count: u32) -> u32
    requires rings { (driver.old.ring ≡ on.now.ring) × (device.old.ring ≡ on.now.ring) }
    requires held { HoldsBuffer role.Driver driver.old first }
    ensures rings { (driver.new.ring ≡ on.now.ring) × (device.new.ring ≡ on.now.ring) }
{
    let mut hand = Some(first);
    for done in 0..count {
        let Some(buffer) = hand else {
            return done;
        };
        driver.offer(on, buffer, 16);
        if !serve_one(on, device) {
            return done;
        }
        hand = reclaim_one(on, driver);
    }
    if hand.is_some() { count } else { 0 }
}

// The driver's rounds on a thread of its own. It tries until it has its buffer.
fn drive(on: &Ring, mut driver: Driver, first: Buffer, count: u32) -> Driver
    requires ring { driver.ring ≡ on.now.ring }
    requires held { HoldsBuffer role.Driver driver first }
    ensures { result.ring ≡ on.now.ring }
{
    let mut hand = Some(first);
    let mut offered = 0;
    for _ in 0..u64::MAX {
        match hand {
            None => hand = reclaim_one(on, &mut driver),
            Some(buffer) => {
                if offered >= count {
                    return driver;
                }
                driver.offer(on, buffer, 16);
                offered += 1;
                hand = None;
            }
        }
    }
    driver
}

// The device's rounds on a thread of its own.
fn serve(on: &Ring, mut device: Device, count: u32) -> Device
    requires { device.ring ≡ on.now.ring }
    ensures { result.ring ≡ on.now.ring }
{
    let mut done = 0;
    for _ in 0..u64::MAX {
        if done >= count {
            break;
        }
        if serve_one(on, &mut device) {
            done += 1;
        }
    }
    device
}

fn is_at_rest(closed: &Closed) -> bool {
    let words = closed.words();
    words.get(word_of(2, Field::AvailIdx)) == Some(&4464)
        && words.get(word_of(2, Field::UsedIdx)) == Some(&4464)
        && closed.driver_held() == [0, 1].as_slice()
        && closed.device_held().is_empty()
        && closed.offered_left().is_empty()
        && closed.returned_left().is_empty()
}

/// Whether a ring at rest is queue 1 of two buffers, whose halves looked once a round and saw a buffer each time.
fn looked_each_round(closed: &Closed) -> bool {
    is_at_rest(closed)
        && closed.queue() == 1
        && closed.size() == 2
        && closed.device_looks() == 70_000
        && closed.device_saw() == 70_000
        && closed.driver_looks() == 70_000
        && closed.driver_saw() == 70_000
}

// Whether 70,000 rounds on one thread leave a ring of two so.
fn goes_round(alloc: Global) -> bool {
    let Ok((ring, mut driver, mut device, mut buffers)) = Ring::new(alloc, 1, 2, 512) else {
        return false;
    };
    let done = rounds(&ring, &mut driver, &mut device, buffers.remove(1), 70_000);
    let closed = ring.finish(driver, device);
    done == 70_000 && looked_each_round(&closed)
}

#[test]
fn seventy_thousand_rounds_on_one_thread(rt: HostRuntime) {
    assert!(rt; goes_round(rt.alloc()));
}

// Rounds with the last of these buffers.
fn rounds_of_last(
    on: &Ring,
    driver: &mut Driver,
    device: &mut Device,
    mut buffers: Vec<Buffer>,
    count: u32,
) -> u32
    requires rings { (driver.old.ring ≡ on.now.ring) × (device.old.ring ≡ on.now.ring) }
    requires held { AreHeld role.Driver driver.old buffers.items }
    ensures rings { (driver.new.ring ≡ on.now.ring) × (device.new.ring ≡ on.now.ring) }
{
    let Some(last) = buffers.pop() else {
        return 0;
    };
    rounds(on, driver, device, last, count)
}

// Whether both index words are 70,000 modulo 65,536, and the driver holds all 32,768 buffers of 64 bytes.
fn is_greatest_at_rest(closed: &Closed) -> bool {
    let words = closed.words();
    words.get(word_of(32_768, Field::AvailIdx)) == Some(&4464)
        && words.get(word_of(32_768, Field::UsedIdx)) == Some(&4464)
        && closed.size() == 32_768
        && closed.length() == 64
        && closed.driver_held().len() == 32_768
}

// Whether 70,000 rounds on one thread leave the greatest ring of the shortest buffers so.
fn greatest_goes_round(alloc: Global) -> bool {
    let Ok((ring, mut driver, mut device, buffers)) = Ring::new(alloc, 1, 32_768, 64) else {
        return false;
    };
    let done = rounds_of_last(&ring, &mut driver, &mut device, buffers, 70_000);
    let closed = ring.finish(driver, device);
    done == 70_000 && is_greatest_at_rest(&closed)
}

#[test]
fn seventy_thousand_rounds_on_the_greatest_ring(rt: HostRuntime) {
    assert!(rt; greatest_goes_round(rt.alloc()));
}

#[test]
fn seventy_thousand_rounds_on_two_threads(rt: HostRuntime) -> Result<(), Fail> {
    let (ring, driver, device, mut buffers) = Ring::new(rt.alloc(), 1, 2, 512)?;
    let first = buffers.remove(1);
    let (driver, device) = join(
        &rt,
        || drive(&ring, driver, first, 70_000),
        || serve(&ring, device, 70_000),
    );
    let closed = ring.finish(driver, device);
    assert!(rt; is_at_rest(&closed));
    Ok(())
}

// Fetches all that stand, the last in front.
fn fetch_reversed(
    on: &Ring,
    device: &mut Device,
    held: &mut VecDeque<Buffer>,
) -> Result<(), AllocError>
    requires ring { device.old.ring ≡ on.now.ring }
    requires held { AreHeld role.Device device.old held.old.items }
    requires sound { IsSound role.Device device.old }
    ensures ring { device.new.ring ≡ on.now.ring }
    ensures held { OnOk result (AreHeld role.Device device.new held.new.items) }
{
    for _ in 0..u64::MAX {
        match device.fetch(on) {
            None => return Ok(()),
            Some((buffer, _)) => {
                if held.push_front(buffer).is_err() {
                    return Err(AllocError);
                }
            }
        }
    }
    Ok(())
}

// The first so many go behind the others.
fn turn(device: &Device, held: &mut VecDeque<Buffer>, count: usize)
    requires { AreHeld role.Device device.now held.old.items }
    ensures { AreHeld role.Device device.now held.new.items }
{
    if count <= held.len() {
        held.rotate_left(count);
    }
}

// Gives all back, from the front on: their numbers.
fn give_in_turn(
    alloc: Global,
    on: &Ring,
    device: &mut Device,
    held: &mut VecDeque<Buffer>,
) -> Result<Vec<u16>, AllocError>
    requires ring { device.old.ring ≡ on.now.ring }
    requires held { AreHeld role.Device device.old held.old.items }
    ensures { device.new.ring ≡ on.now.ring }
{
    let mut given = Vec::new(alloc);
    while let Some(buffer) = held.pop_front() {
        given.push(buffer.number())?;
        device.give(on, buffer, 0);
    }
    Ok(given)
}

fn reclaim_numbers(alloc: Global, on: &Ring, driver: &mut Driver) -> Result<Vec<u16>, AllocError>
    requires { driver.old.ring ≡ on.now.ring }
{
    let mut back = Vec::new(alloc);
    for _ in 0..u64::MAX {
        match driver.reclaim(on) {
            None => return Ok(back),
            Some((buffer, _)) => back.push(buffer.number())?,
        }
    }
    Ok(back)
}

/// Whether eight buffers are fetched, given back from the one at this place on, and reclaimed in the order given.
fn reclaims_as_given(
    alloc: Global,
    on: &Ring,
    driver: &mut Driver,
    device: &mut Device,
    turned: usize,
) -> Result<bool, AllocError>
    requires rings { (driver.old.ring ≡ on.now.ring) × (device.old.ring ≡ on.now.ring) }
    requires sound { IsSound role.Device device.old }
{
    let mut held = VecDeque::new(alloc);
    fetch_reversed(on, device, &mut held)?;
    turn(device, &mut held, turned);
    let given = give_in_turn(alloc, on, device, &mut held)?;
    let back = reclaim_numbers(alloc, on, driver)?;
    Ok(given.len() == 8 && given == back)
}

/// The same over a new ring of eight buffers, all of which are offered.
fn come_back_as_given(alloc: Global, turned: usize) -> bool {
    let Ok((ring, driver, mut device, buffers)) = Ring::new(alloc, 0, 8, 512) else {
        return false;
    };
    let mut driver = offer_all(&ring, driver, buffers);
    reclaims_as_given(alloc, &ring, &mut driver, &mut device, turned) == Ok(true)
}

#[test]
fn buffers_come_back_in_the_order_given(rt: HostRuntime) {
    for turned in [0, 3] {
        assert!(rt; come_back_as_given(rt.alloc(), turned), "{turned}");
    }
}
