//! Both halves on one thread.
ghost use Rattle.std.specs.Prelude.{◌≡◌, ◌≤◌, IfSome};
ghost use Rattle.mc_base.specs.Limits.{shortest_buffer};
ghost use Rattle.shared_words.specs.declared.view.Role.TheVariants as role;
ghost use Rattle.split_ring.specs.Ends.{AreHeld, HoldsBuffer};

use crate::length::length;
use mc_base::Buffer;
use split_ring::{Closed, Device, Driver, Ring};

fn rounds_of(
    on: &Ring,
    driver: &mut Driver,
    device: &mut Device,
    mut hand: Option<Buffer>,
    rounds: u32,
)
    requires rings { (driver.old.ring ≡ on.now.ring) × (device.old.ring ≡ on.now.ring) }
    requires held { IfSome hand (λ b. HoldsBuffer role.Driver driver.old b) }
    requires wide { shortest_buffer ≤ on.now.ring.width }
    ensures { (driver.new.ring ≡ on.now.ring) × (device.new.ring ≡ on.now.ring) }
{
    for round in 0..rounds {
        let Some(buffer) = hand else { break };
        let len = length(round, buffer.number());
        driver.offer(on, buffer, len);
        if let Some((fetched, len)) = device.fetch(on) {
            device.give(on, fetched, len);
        }
        hand = match driver.reclaim(on) {
            Some((buffer, _)) => Some(buffer),
            None => None,
        };
    }
}

/// A buffer at a time is offered, fetched, given back and reclaimed.
pub fn run(
    ring: Ring,
    mut driver: Driver,
    mut device: Device,
    mut buffers: Vec<Buffer>,
    rounds: u32,
) -> Closed
    requires rings { (driver.ring ≡ ring.ring) × (device.ring ≡ ring.ring) }
    requires held { AreHeld role.Driver driver buffers.items }
    requires wide { shortest_buffer ≤ ring.ring.width }
{
    let hand = buffers.pop();
    rounds_of(&ring, &mut driver, &mut device, hand, rounds);
    ring.finish(driver, device)
}
