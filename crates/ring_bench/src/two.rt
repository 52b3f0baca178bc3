//! Each half on a thread of its own.
ghost use Rattle.std.specs.Prelude.{◌≡◌};
ghost use Rattle.shared_words.specs.declared.view.Role.TheVariants as role;
ghost use Rattle.split_ring.specs.Ends.{AreHeld, IsSound};

use crate::batch::offer_new;
use crate::length::length;
use mc_base::Buffer;
use split_ring::{Closed, Device, Driver, Ring};
use std::thread::{Threads, join};

/// How many buffers move.
#[derive(Clone, Copy)]
pub enum Load {
    All,
    One,
}

// Offers the last buffer.
fn offer_last(on: &Ring, driver: &mut Driver, mut buffers: Vec<Buffer>)
    requires ring { driver.old.ring ≡ on.now.ring }
    requires held { AreHeld role.Driver driver.old buffers.items }
    ensures { driver.new.ring ≡ on.now.ring }
{
    let Some(buffer) = buffers.pop() else { return };
    let len = length(0, buffer.number());
    driver.offer(on, buffer, len);
}

// Offers the buffers, and then each that comes back.
fn drive(on: &Ring, mut driver: Driver, buffers: Vec<Buffer>, load: Load, rounds: u32) -> Driver
    requires ring { driver.ring ≡ on.now.ring }
    requires held { AreHeld role.Driver driver buffers.items }
    requires sound { IsSound role.Driver driver }
    ensures { result.ring ≡ on.now.ring }
{
    match load {
        Load::All => offer_new(on, &mut driver, buffers),
        Load::One => offer_last(on, &mut driver, buffers),
    }
    let mut done = 0;
    for _ in 0..u64::MAX {
        if done >= rounds {
            break;
        }
        if let Some((buffer, _)) = driver.reclaim(on) {
            done += 1;
            let len = length(done, buffer.number());
            driver.offer(on, buffer, len);
        }
    }
    driver
}

fn serve(on: &Ring, mut device: Device, rounds: u32) -> Device
    requires { device.ring ≡ on.now.ring }
    ensures { result.ring ≡ on.now.ring }
{
    let mut done = 0;
    for _ in 0..u64::MAX {
        if done >= rounds {
            break;
        }
        if let Some((buffer, len)) = device.fetch(on) {
            device.give(on, buffer, len);
            done += 1;
        }
    }
    device
}

pub fn run<R: Threads + Sync>(
    rt: &R,
    ring: Ring,
    driver: Driver,
    device: Device,
    buffers: Vec<Buffer>,
    load: Load,
    rounds: u32,
) -> Closed
    requires rings { (driver.ring ≡ ring.ring) × (device.ring ≡ ring.ring) }
    requires held { AreHeld role.Driver driver buffers.items }
    requires sound { IsSound role.Driver driver }
{
    let (driver, device) = join(
        rt,
        || drive(&ring, driver, buffers, load, rounds),
        || serve(&ring, device, rounds),
    );
    ring.finish(driver, device)
}
