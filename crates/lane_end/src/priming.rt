ghost use Rattle.std.specs.Prelude.{◌≡◌, ◌≤◌, ◌+◌, ℕ, [], length};
ghost use Rattle.std.specs.List.{All};
ghost use Rattle.std.specs.VecDeque.{deque_len, deque_capacity};
ghost use Rattle.mc_base.specs.Limits.{ring_limit};
ghost use Rattle.shared_words.specs.declared.view.Role.TheVariants as role;
ghost use Rattle.split_ring.specs.Ends.{new_end, AreHeld, HasWidth, IsSound};
ghost use Rattle.lane_end.specs.Held.{numbers_of};
ghost use Rattle.lane_end.specs.RingOpening.{primed_driver, primed_device};
ghost use Rattle.lane_end.specs.Priming.{Offers, Fetches};

use crate::ring_half::RingHalf;
use mc_base::Buffer;
use split_ring::{Device, Driver, Ring};
use std::collections::VecDeque;

/// Moves all buffers from the driver to the device, so that the device can send: the driver offers each whole, and the device
/// fetches it. The list then has the device's buffers, with the same numbers in the same order.
pub(crate) fn prime(
    on: &Ring,
    driver: &mut Driver,
    device: &mut Device,
    buffers: &mut VecDeque<Buffer>,
)
    requires halves { (driver.old ≡ new_end on.now.ring) × (device.old ≡ new_end on.now.ring) }
    requires sound { IsSound role.Driver driver.old × IsSound role.Device device.old }
    requires held { AreHeld role.Driver driver.old buffers.old.items }
    requires small { length buffers.old.items ≤ ring_limit }
    ensures free { numbers_of buffers.new.items ≡ numbers_of buffers.old.items }
    ensures room { deque_capacity buffers.new ≡ deque_capacity buffers.old }
    ensures driver { driver.new ≡ primed_driver on.now.ring buffers.old.items }
    ensures device { device.new ≡ primed_device on.now.ring buffers.old.items (length buffers.old.items) }
    ensures sound { IsSound role.Driver driver.new × IsSound role.Device device.new }
    ensures wide { All (HasWidth device.new) buffers.new.items }
{
    let size = buffers.len() as u32;
    offer_all(on, driver, buffers);
    on.meet(driver, device);
    fetch_all(on, device, buffers, size);
    // Only this meeting shows that what was fetched is what was offered.
    on.meet(driver, device);
}

fn offer_all(on: &Ring, driver: &mut Driver, buffers: &mut VecDeque<Buffer>)
    requires ring { driver.old.ring ≡ on.now.ring }
    requires sound { IsSound role.Driver driver.old }
    requires held { AreHeld role.Driver driver.old buffers.old.items }
    ensures offered { Offers driver.old driver.new buffers.old.items [] }
    ensures empty { buffers.new.items ≡ [] }
    ensures room { deque_capacity buffers.new ≡ deque_capacity buffers.old }
{
    while let Some(buffer) = buffers.pop_front() {
        driver.offer(on, buffer, on.length());
    }
}

fn fetch_all(on: &Ring, device: &mut Device, buffers: &mut VecDeque<Buffer>, count: u32)
    requires ring { device.old.ring ≡ on.now.ring }
    requires sound { IsSound role.Device device.old }
    requires shown { device.old.shown ≡ length device.old.taken + count }
    requires room { length buffers.old.items + count ≤ deque_capacity buffers.old }
    requires wide { All (HasWidth device.old) buffers.old.items }
    ensures wide { All (HasWidth device.new) buffers.new.items }
    ensures fetched { Fetches device.old device.new buffers.old.items buffers.new.items count }
    ensures room { deque_capacity buffers.new ≡ deque_capacity buffers.old }
{
    for _ in 0..count {
        let (buffer, _) = device.take_next(on);
        buffers.push_back_reserved(buffer);
    }
}
