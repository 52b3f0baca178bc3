//! The rings of a board: two for each link.

ghost use Rattle.std.specs.Prelude.{◌≤◌, IfOk};
ghost use Rattle.std.specs.List.{AllByRecursion};
ghost use Rattle.shared_words.specs.Shape.{IsRingSize};
ghost use Rattle.board_runner.specs.Wired.{AreRings, HaveParts, IsNewRing};

use board_model::LinkLine;
use board_numbers::append;
use mc_base::{BUFFER_SIZE, Buffer, NoMemory};
use split_ring::{Device, Driver, Ring, RingFault};
use std::alloc::Global;

/// The rings of a link: queue 0 from its device to its driver, and queue 1 back.
#[derive(Drop)]
pub struct LinkRings {
    pub queue0: Ring,
    pub queue1: Ring,
}

/// The two halves of a ring, and its buffers.
#[derive(Drop)]
pub struct Halves {
    pub driver: Driver,
    pub device: Device,
    pub buffers: Vec<Buffer>,
}

/// The halves of the rings of a link.
#[derive(Drop)]
pub struct LinkHalves {
    pub queue0: Halves,
    pub queue1: Halves,
}

/// The rings of all links, in the order of the links, and their halves.
///
/// # Errors
///
/// `NoMemory` where an allocation for a ring fails.
pub fn rings_of(
    alloc: Global,
    links: &[LinkLine],
) -> Result<(Vec<LinkRings>, Vec<LinkHalves>), NoMemory>
    requires { AllByRecursion (λ l. IsRingSize l.size) links.now }
    ensures { IfOk result (λ r. AreRings links.now r.0.items r.1.items) }
{
    let mut rings = Vec::new(alloc);
    let mut halves = Vec::new(alloc);
    for link in links {
        let (two, parts) = rings_of_link(alloc, link.size)?;
        append(&mut rings, two)?;
        append(&mut halves, parts)?;
    }
    Ok((rings, halves))
}

/// The two rings of a link of this size.
fn rings_of_link(alloc: Global, size: u32) -> Result<(LinkRings, LinkHalves), NoMemory>
    requires { IsRingSize size }
    ensures { IfOk result (λ r. HaveParts size r.0 r.1) }
{
    let (queue0, zero) = new_ring(alloc, 0, size)?;
    let (queue1, one) = new_ring(alloc, 1, size)?;
    let halves = LinkHalves {
        queue0: zero,
        queue1: one,
    };
    Ok((LinkRings { queue0, queue1 }, halves))
}

/// A new ring of a queue, with its halves.
fn new_ring(alloc: Global, queue: u8, size: u32) -> Result<(Ring, Halves), NoMemory>
    requires queue { queue ≤ 1 }
    requires size { IsRingSize size }
    ensures { IfOk result (λ r. IsNewRing queue size r.0 r.1) }
{
    match Ring::new(alloc, queue, size, BUFFER_SIZE as u32) {
        Ok((ring, driver, device, buffers)) => {
            let halves = Halves {
                driver,
                device,
                buffers,
            };
            Ok((ring, halves))
        }
        Err(RingFault::NoMemory) => Err(NoMemory),
        Err(RingFault::Queue | RingFault::Size | RingFault::Length) => unreachable!(),
    }
}
