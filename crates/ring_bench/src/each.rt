//! All buffers are offered, and each is given back as soon as it is fetched.
ghost use Rattle.std.specs.Prelude.{◌≡◌};
ghost use Rattle.shared_words.specs.declared.view.Role.TheVariants as role;
ghost use Rattle.split_ring.specs.Ends.{AreHeld, IsSound};

use crate::batch::{offer_all, offer_new, reclaim_all};
use crate::length::length;
use mc_base::Buffer;
use split_ring::{Closed, Device, Driver, Ring};
use std::alloc::{AllocError, Global};
use std::collections::VecDeque;

fn give_each(on: &Ring, device: &mut Device, round: u32)
    requires ring { device.old.ring ≡ on.now.ring }
    ensures ring { device.new.ring ≡ on.now.ring }
{
    for _ in 0..u64::MAX {
        match device.fetch(on) {
            None => return,
            Some((buffer, _)) => {
                let len = length(round, buffer.number());
                device.give(on, buffer, len);
            }
        }
    }
}

fn rounds_of(
    alloc: Global,
    on: &Ring,
    driver: &mut Driver,
    device: &mut Device,
    rounds: u32,
) -> Result<(), AllocError>
    requires rings { (driver.old.ring ≡ on.now.ring) × (device.old.ring ≡ on.now.ring) }
    requires sound { IsSound role.Driver driver.old }
    ensures rings { (driver.new.ring ≡ on.now.ring) × (device.new.ring ≡ on.now.ring) }
{
    let mut free = VecDeque::new(alloc);
    for round in 0..rounds {
        offer_all(on, driver, &mut free, round);
        give_each(on, device, round);
        reclaim_all(on, driver, &mut free)?;
    }
    Ok(())
}

/// Rounds of all buffers.
pub fn run(
    alloc: Global,
    ring: Ring,
    mut driver: Driver,
    mut device: Device,
    buffers: Vec<Buffer>,
    rounds: u32,
) -> Result<Closed, AllocError>
    requires rings { (driver.ring ≡ ring.ring) × (device.ring ≡ ring.ring) }
    requires held { AreHeld role.Driver driver buffers.items }
    requires sound { IsSound role.Driver driver }
{
    offer_new(&ring, &mut driver, buffers);
    rounds_of(alloc, &ring, &mut driver, &mut device, rounds)?;
    Ok(ring.finish(driver, device))
}
