//! All buffers are fetched, and then given back in order or in reverse.
ghost use Rattle.std.specs.Prelude.{◌≡◌, OnOk};
ghost use Rattle.shared_words.specs.declared.view.Role.TheVariants as role;
ghost use Rattle.split_ring.specs.Ends.{AreHeld, IsSound};

use crate::length::length;
use mc_base::Buffer;
use split_ring::{Closed, Device, Driver, Ring};
use std::alloc::{AllocError, Global};
use std::collections::VecDeque;

/// Offers the buffers of a new ring, the last first.
pub(crate) fn offer_new(on: &Ring, driver: &mut Driver, mut buffers: Vec<Buffer>)
    requires ring { driver.old.ring ≡ on.now.ring }
    requires held { AreHeld role.Driver driver.old buffers.items }
    requires sound { IsSound role.Driver driver.old }
    ensures ring { driver.new.ring ≡ on.now.ring }
    ensures sound { IsSound role.Driver driver.new }
{
    while let Some(buffer) = buffers.pop() {
        let len = length(0, buffer.number());
        driver.offer(on, buffer, len);
    }
}

pub(crate) fn offer_all(on: &Ring, driver: &mut Driver, free: &mut VecDeque<Buffer>, round: u32)
    requires ring { driver.old.ring ≡ on.now.ring }
    requires held { AreHeld role.Driver driver.old free.old.items }
    requires sound { IsSound role.Driver driver.old }
    ensures ring { driver.new.ring ≡ on.now.ring }
    ensures held { AreHeld role.Driver driver.new free.new.items }
    ensures sound { IsSound role.Driver driver.new }
{
    while let Some(buffer) = free.pop_front() {
        let len = length(round, buffer.number());
        driver.offer(on, buffer, len);
    }
}

fn fetch_all(on: &Ring, device: &mut Device, held: &mut VecDeque<Buffer>) -> Result<(), AllocError>
    requires ring { device.old.ring ≡ on.now.ring }
    requires held { AreHeld role.Device device.old held.old.items }
    requires sound { IsSound role.Device device.old }
    ensures ring { device.new.ring ≡ on.now.ring }
    ensures held { OnOk result (AreHeld role.Device device.new held.new.items) }
    ensures sound { IsSound role.Device device.new }
{
    for _ in 0..u64::MAX {
        match device.fetch(on) {
            None => return Ok(()),
            Some((buffer, _)) => {
                if held.push_back(buffer).is_err() {
                    return Err(AllocError);
                }
            }
        }
    }
    Ok(())
}

fn give_all(on: &Ring, device: &mut Device, held: &mut VecDeque<Buffer>, round: u32)
    requires ring { device.old.ring ≡ on.now.ring }
    requires held { AreHeld role.Device device.old held.old.items }
    requires sound { IsSound role.Device device.old }
    ensures ring { device.new.ring ≡ on.now.ring }
    ensures held { AreHeld role.Device device.new held.new.items }
    ensures sound { IsSound role.Device device.new }
{
    while let Some(buffer) = held.pop_front() {
        let len = length(round, buffer.number());
        device.give(on, buffer, len);
    }
}

fn give_all_back(on: &Ring, device: &mut Device, held: &mut VecDeque<Buffer>, round: u32)
    requires ring { device.old.ring ≡ on.now.ring }
    requires held { AreHeld role.Device device.old held.old.items }
    requires sound { IsSound role.Device device.old }
    ensures ring { device.new.ring ≡ on.now.ring }
    ensures held { AreHeld role.Device device.new held.new.items }
    ensures sound { IsSound role.Device device.new }
{
    while let Some(buffer) = held.pop_back() {
        let len = length(round, buffer.number());
        device.give(on, buffer, len);
    }
}

pub(crate) fn reclaim_all(
    on: &Ring,
    driver: &mut Driver,
    free: &mut VecDeque<Buffer>,
) -> Result<(), AllocError>
    requires ring { driver.old.ring ≡ on.now.ring }
    requires held { AreHeld role.Driver driver.old free.old.items }
    requires sound { IsSound role.Driver driver.old }
    ensures ring { driver.new.ring ≡ on.now.ring }
    ensures held { OnOk result (AreHeld role.Driver driver.new free.new.items) }
    ensures sound { IsSound role.Driver driver.new }
{
    for _ in 0..u64::MAX {
        match driver.reclaim(on) {
            None => return Ok(()),
            Some((buffer, _)) => {
                if free.push_back(buffer).is_err() {
                    return Err(AllocError);
                }
            }
        }
    }
    Ok(())
}

fn rounds_of(
    alloc: Global,
    on: &Ring,
    driver: &mut Driver,
    device: &mut Device,
    rounds: u32,
    is_reverse: bool,
) -> Result<(), AllocError>
    requires rings { (driver.old.ring ≡ on.now.ring) × (device.old.ring ≡ on.now.ring) }
    requires sound { IsSound role.Driver driver.old × IsSound role.Device device.old }
    ensures rings { (driver.new.ring ≡ on.now.ring) × (device.new.ring ≡ on.now.ring) }
{
    let mut free = VecDeque::new(alloc);
    let mut held = VecDeque::new(alloc);
    for round in 0..rounds {
        offer_all(on, driver, &mut free, round);
        fetch_all(on, device, &mut held)?;
        if is_reverse {
            give_all_back(on, device, &mut held, round);
        } else {
            give_all(on, device, &mut held, round);
        }
        reclaim_all(on, driver, &mut free)?;
    }
    Ok(())
}

/// Rounds of all buffers.
pub fn run(
    alloc: Global,
    ring: Ring,
    mut driver: Driver,
    mut device: Device,
    buffers: Vec<Buffer>,
    rounds: u32,
    is_reverse: bool,
) -> Result<Closed, AllocError>
    requires rings { (driver.ring ≡ ring.ring) × (device.ring ≡ ring.ring) }
    requires held { AreHeld role.Driver driver buffers.items }
    requires sound { IsSound role.Driver driver × IsSound role.Device device }
{
    offer_new(&ring, &mut driver, buffers);
    rounds_of(alloc, &ring, &mut driver, &mut device, rounds, is_reverse)?;
    Ok(ring.finish(driver, device))
}
